// The ends of the links, read in the working copy.
// Kept: an end is a number (0 or 1), since it is an offset wherever it is used: with an enum each of these places would be a cast.
ghost use Rattle.std.specs.Prelude.{◌≡◌, ◌+◌, ◌*◌, ◌≤◌, length};
ghost use Rattle.flow.specs.Copies.{end_in};

// An end of link k in the copy: its from at 0, its to at 1.
pub fn end_in(ends: &[u8], k: usize, end: usize) -> usize
    requires { (end ≤ 1) × (2 * k + 2 ≤ length ends.now) }
    ensures { result ≡ end_in ends.now end k }
{
    ends[2 * k + end] as usize
}
