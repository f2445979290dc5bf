// The passes of the cycle test over its working list. A group's links stand together, since links are sorted, so each link is looked at twice. The
// groups that are ready to be peeled wait on a stack that is threaded through the counts: a group on it has no count to keep.
ghost use Rattle.std.specs.Prelude.{◌≤◌, ◌<◌};
ghost use Rattle.survey.specs.Limits.{group_limit};
ghost use Rattle.cycles.specs.Lists.{LinksHold, links_hold_prop, links_in};
ghost use Rattle.cycles.specs.Tallies.{Blank, Kept, count_of, first_of};
ghost use Rattle.cycles.specs.Peeling.{Tallied, Stacked, Indexed, Peels, Walks, Walked, none_owed};

use crate::lists::LinkList;
use crate::tallies::{Tally, lower, note, settle};
use survey::limits::GROUPS;

// A list that the test may lean on: its sizes are in range, its ends are groups, and its links ascend.
// Kept: the working list goes beside it, and not into one struct with it, since each pass would then have to say that it leaves the list as it is.
#[derive(Clone, Copy)]
pub struct Held<'a> {
    pub list: LinkList<'a>,
    ghost hold: { LinksHold list } by { links_hold_prop list },
}

// From the last link to the first, so that the last one noted at a group is its first.
pub fn tally(w: &mut [Tally; GROUPS], links: Held)
    requires { Blank w.old }
    ensures { Tallied (links_in links.entry.list) w.new 0 }
{
    for k in (0..links.list.e).rev() {
        let link = links.list.link(k);
        note(w, link.from, link.to, k);
    }
}

// The groups that no link comes to. The top of the stack.
pub fn stack(w: &mut [Tally; GROUPS], n: usize) -> usize
    requires { n ≤ group_limit }
    ensures { Stacked (count_of w.old) (count_of w.new) n result × Kept (first_of w.old) (first_of w.new) }
{
    let mut top = 0;
    for g in 0..n {
        top = settle(w, g, top);
    }
    top
}

// The links of g, which has just been peeled. The top of the stack then.
fn walk(w: &mut [Tally; GROUPS], links: Held, top: usize, g: usize) -> usize
    requires { (g < links.list.n) × Walks (links_in links.list) w.old top g }
    ensures { Walked (links_in links.entry.list) w.old w.new top result g }
{
    let mut now_top = top;
    let first = w[g].first as usize;
    for k in first..links.list.e {
        let link = links.list.link(k);
        if link.from != g {
            return now_top;
        }
        now_top = lower(w, link.to, now_top);
    }
    now_top
}

// How many groups can be peeled.
pub fn peel(w: &mut [Tally; GROUPS], links: Held, first: usize) -> usize
    requires { Peels (links_in links.list) (count_of w.old) first 0 none_owed × Indexed (links_in links.list) (first_of w.old) 0 }
    ensures { Peels (links_in links.entry.list) (count_of w.new) 0 result none_owed }
{
    let mut top = first;
    let mut c = 0;
    while 0 < top {
        let g = top - 1;
        let next = w[g].count as usize;
        top = walk(w, links, next, g);
        c += 1;
    }
    c
}
