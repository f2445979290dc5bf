// A block's check (Specification 9): a sum of its content words and a sum of those sums, both by addition that wraps, held against the block's last two words.
ghost use Rattle.std.specs.Prelude.{◌≡◌};
ghost use Rattle.survey.specs.Limits.{content_words};
ghost use Rattle.survey.specs.SurveyFile.{block_word, sums, sums_after, CheckAgrees};
ghost use Rattle.refusals.specs.Searches.{Tells};
ghost use Rattle.views.specs.Views.{Within};
ghost use Rattle.views.specs.Sums.{sums_of};

use crate::view::{block_check, block_word};

#[derive(Clone, Copy)]
pub struct Sums {
    pub a: u32,
    pub b: u32,
}

// One word further: the word goes into a, and a as it is then into b.
fn sums_after(s: Sums, x: u32) -> Sums
    ensures { sums_of result ≡ sums_after (sums_of s) x }
{
    let a = s.a.wrapping_add(x);
    let b = s.b.wrapping_add(a);
    Sums { a, b }
}

// The two sums over the content words of block b.
#[tactic(auto, using(crate::proofs::SumLaws::sums_none, crate::proofs::SumLaws::sums_more))]
fn block_sums(file: &[u8], b: usize) -> Sums
    requires { Within file.now b }
    ensures { sums_of result ≡ sums (block_word file.now b) content_words }
{
    let mut s = Sums { a: 1, b: 0 };
    for w in 0..126 {
        s = sums_after(s, block_word(file, b, w));
    }
    s
}

// Whether both sums are the ones that the block says.
// Kept: two comparisons, since the check words are no `Sums` elsewhere: made one, to be compared by a derived `==`, they take five lines for one.
pub fn check_agrees(file: &[u8], b: usize) -> bool
    requires { Within file.now b }
    ensures { Tells (CheckAgrees file.now b) result }
{
    let s = block_sums(file, b);
    s.a == block_check(file, b, 0) && s.b == block_check(file, b, 1)
}
