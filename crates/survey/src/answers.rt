// Refusals, each with its number and its place (Specification 10.1), and what the reader answers (12.2). Each part's answer is a Result whose error is
// the refusal: `Result<(), Refusal>` where there is nothing else to say, `Result<Size, Refusal>` of the reader, and `Result<u64, Refusal>` of the chooser,
// its count of rounds.

#[derive(Clone, Copy)]
pub enum Place {
    Nothing,
    Block(usize),
    Group(usize),
    Link(usize),
}

#[derive(Clone, Copy)]
pub struct Refusal {
    pub number: u64,
    pub place: Place,
}

// The survey's n and e.
#[derive(Clone, Copy)]
pub struct Size {
    pub n: usize,
    pub e: usize,
}
