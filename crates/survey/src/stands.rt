// Where the entries of a list stand (Specification 8.3): one after the other in a lent list, or in the blocks of a file, from this block on.

#[derive(Clone, Copy)]
pub enum Stand {
    Lent,
    Blocks(usize),
}
