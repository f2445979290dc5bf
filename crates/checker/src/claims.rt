// What is looked for in a claim, one mark, amount or link at a time (Specification 11.1): 13, of a mark, 14, of an amount, and 15, of a link that comes
// into the claimed set from outside.
ghost use Rattle.std.specs.Prelude.{◌*◌, ◌≤◌, length};
ghost use Rattle.survey.specs.Limits.{entry_bytes};
ghost use Rattle.refusals.specs.Searches.{Finds, Tells};
ghost use Rattle.checker.specs.Claims.{mark_row, amount_row, Open, closed_row, LinkMarked, EndsMarked};

use entries::{Lists, amount_at};

// the most that a claim puts on a link (Specification 7.1)
const AMOUNT: u64 = 20_000_000_000_000_000;

// 13: the lowest group at fault.
pub fn first_bad_mark(n: usize, marks: &[u8]) -> Option<usize>
    requires { n ≤ length marks.now }
    ensures { Finds (mark_row n marks.now) result }
{
    (0..n).find(|g| 1 < marks[*g])
}

// 14: the lowest link at fault.
pub fn first_above_limit(e: usize, amounts: &[u8]) -> Option<usize>
    requires { entry_bytes * e ≤ length amounts.now }
    ensures { Finds (amount_row e amounts.now) result }
{
    (0..e).find(|k| AMOUNT < amount_at(amounts, *k))
}

// 15: from out, to in
fn is_open(lists: Lists, marks: &[u8], k: usize) -> bool
    requires { LinkMarked lists.links.now marks.now k }
    ensures { Tells (Open lists.entry.links.now marks.now k) result }
{
    let link = lists.link(k);
    marks[link.from] != 1 && marks[link.to] == 1
}

// 15: the lowest link at fault.
pub fn first_open(lists: Lists, marks: &[u8]) -> Option<usize>
    requires { EndsMarked lists.e lists.links.now marks.now }
    ensures { Finds (closed_row lists.entry.e lists.entry.links.now marks.now) result }
{
    (0..lists.e).find(|k| is_open(lists, marks, *k))
}
