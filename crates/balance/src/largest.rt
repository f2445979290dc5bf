// 18: the largest settled set (Specification 7.3) is what lies outside the set that drains: the least one that holds each group with a lack and grows
// along each link from a group in it, and back along each link to one in it that has an amount.
ghost use Rattle.refusals.specs.Searches.{Finds};
ghost use Rattle.balance.specs.Largest.{outside_row, MarksLong, LargestAsks, LeftOutFound};

use crate::Claim;
use entries::Lists;
use flow::draining::drained;
use survey::limits::GROUPS;

// The lowest group that is neither in the draining set t nor claimed.
fn first_outside(n: usize, t: &[u8], marks: &[u8]) -> Option<usize>
    requires { MarksLong n t.now marks.now }
    ensures { Finds (outside_row n t.now marks.now) result }
{
    (0..n).find(|g| t[*g] != 1 && marks[*g] != 1)
}

// The lowest group that the claim leaves out of the largest settled set, where each balance is 0 or below and lack has how much it is below.
pub fn first_left_out(lists: Lists, claim: Claim, lack: &[u64]) -> Option<usize>
    requires { LargestAsks lists.n lists.e lists.links.now claim.marks.now claim.amounts.now lack.now }
    ensures { LeftOutFound lists.entry.n lists.entry.e lists.entry.links.now claim.entry.marks.now claim.entry.amounts.now lack.now result }
{
    let mut t = [0u8; GROUPS];
    drained(lists.n, lists.e, lists.links, claim.amounts, lack, &mut t);
    first_outside(lists.n, &t, claim.marks)
}
