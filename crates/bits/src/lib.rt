// Sets of at most 128 groups as the binary digits of two words, and rows of such sets in a list of words.
#![tactic(auto)]

ghost use Rattle.std.specs.Prelude.{◌≡◌, ◌+◌, ◌*◌, ◌^◌, ◌≤◌, ◌<◌, length};
ghost use Rattle.std.specs.Int.Count.{count_trailing_zeros};
ghost use Rattle.bits.specs.Bits.{without, put_bit, cut_bit};

// The word that has every group.
pub const FULL: u64 = u64::MAX;

// The word with digit i alone, and no shift in its promise: so nothing above asks again whether one loses a digit.
fn lone(i: usize) -> u64
    requires { i < 64 }
    ensures { result ≡ 2 ^ i }
{
    1u64 << i
}

// The word without digit i, whether or not it had it.
pub fn leave(w: u64, i: usize) -> u64
    requires { i < 64 }
    ensures { result ≡ without w i }
{
    w & !lone(i)
}

// The lowest group of a word that has one.
pub fn lowest(w: u64) -> usize
    requires { 0 < w }
    ensures { result ≡ count_trailing_zeros 64 w }
{
    w.trailing_zeros() as usize
}

// Puts group h into row g.
pub fn put(m: &mut [u64], g: usize, h: usize)
    requires { (h < 128) × (2 * g + 2 ≤ length m.old) }
    ensures { m.new ≡ put_bit m.old g h }
{
    let place = 2 * g + h / 64;
    m[place] |= lone(h % 64);
}

// Cuts group h from row g.
pub fn cut(m: &mut [u64], g: usize, h: usize)
    requires { (h < 128) × (2 * g + 2 ≤ length m.old) }
    ensures { m.new ≡ cut_bit m.old g h }
{
    let place = 2 * g + h / 64;
    m[place] = leave(m[place], h % 64);
}
