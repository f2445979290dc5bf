// D and L of a marked set (Specification 4.4), and the weights that they give each group (6.1).
#![tactic(auto)]

ghost use Rattle.std.specs.Prelude.{◌≡◌};
ghost use Rattle.survey.specs.Words.{marked_set};
ghost use Rattle.weights.specs.Marked.{MarkedGroups, groups_of, total_of};
ghost use Rattle.weights.specs.Put.{Puttable, WeightsPut};

use counts::{Count, Dead, Live, weight_of};
use entries::Lists;

// What the marked groups have of a count, added up: `marked_sum::<Dead>` is D of the marked set, and `marked_sum::<Live>` its L.
#[tactic(auto, using(crate::proofs::MarkedLaws::marked_steps))]
pub fn marked_sum<C: Count>(lists: Lists, marks: &[u8]) -> C
    requires { MarkedGroups lists.n lists.groups.now marks.now }
    ensures { C.number result ≡ total_of C.held (groups_of lists.entry.n lists.entry.groups.now) (marked_set marks.now) }
{
    let mut sum = C::zero();
    for g in 0..lists.n {
        if marks[g] == 1 {
            sum = sum.plus(C::of(lists.group(g)));
        }
    }
    sum
}

// The weight of each group, its two halves apart: plus[g] is dead·L and minus[g] is cost·D, where d and l are the sums of the set that gives the weights.
// Kept: two lists and not one of weights: `flow::heavy::heaviest` promises the two halves in two lists (`Heavy`), and pairs would be taken apart for it.
pub fn put_weights(lists: Lists, d: Dead, l: Live, plus: &mut [u64], minus: &mut [u64])
    requires { Puttable lists.n lists.groups.now d.0 l.0 plus.old minus.old }
    ensures { WeightsPut lists.entry.n lists.entry.groups.now d.0 l.0 plus.old minus.old plus.new minus.new }
{
    for g in 0..lists.n {
        let weight = weight_of(lists.group(g), d, l);
        plus[g] = weight.plus;
        minus[g] = weight.minus;
    }
}
