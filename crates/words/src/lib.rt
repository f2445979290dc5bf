// Numbers in bytes, low byte first. A word is 4 bytes and a long word 8, so two words, the low one first.
#![tactic(auto)]

ghost use Rattle.std.specs.Prelude.{◌≡◌, ◌+◌, ◌≤◌, length, take, drop};
ghost use Rattle.survey.specs.Words.{word, long_word};
ghost use Rattle.words.specs.Words.{with_word, with_long_word};

// N bytes from place i on. No array is left of it: what reads or writes below compiles to one load or one store.
fn bytes_at<const N: usize>(b: &[u8], i: usize) -> [u8; N]
    requires { i + N ≤ length b.now }
    ensures { result ≡ take N (drop i b.now) }
{
    let mut bytes = [0; N];
    bytes.copy_from_slice(&b[i..i + N]);
    bytes
}

// Kept: a function for a word and one for a long word, to read and to write, since their types differ and their clauses name a definition each. What
// depends on the width alone is one: `bytes_at` here, and `overwritten` in proofs/WordLaws.
pub fn word_at(b: &[u8], i: usize) -> u32
    requires { i + 4 ≤ length b.now }
    ensures { result ≡ word b.now i }
{
    u32::from_le_bytes(bytes_at(b, i))
}

pub fn long_word_at(b: &[u8], i: usize) -> u64
    requires { i + 8 ≤ length b.now }
    ensures { result ≡ long_word b.now i }
{
    u64::from_le_bytes(bytes_at(b, i))
}

#[tactic(auto, using(crate::proofs::WordLaws::word_written))]
pub fn put_word(b: &mut [u8], i: usize, x: u32)
    requires { i + 4 ≤ length b.old }
    ensures { b.new ≡ with_word b.old i x }
{
    b[i..i + 4].copy_from_slice(&x.to_le_bytes());
}

#[tactic(auto, using(crate::proofs::WordLaws::long_word_written))]
pub fn put_long_word(b: &mut [u8], i: usize, x: u64)
    requires { i + 8 ≤ length b.old }
    ensures { b.new ≡ with_long_word b.old i x }
{
    b[i..i + 8].copy_from_slice(&x.to_le_bytes());
}
