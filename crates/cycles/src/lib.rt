// 11: whether some group comes back to itself along the links. The test peels: it counts the links into each group, takes out a group that no link comes to, takes its links
// off the counts, and so on. Where all groups can be peeled there is no cycle, and where some are left, each has a link from one of them.
#![tactic(auto)]

pub mod lists;
mod peeling;
mod tallies;

ghost use Rattle.survey.specs.Survey.{Cycle};
ghost use Rattle.refusals.specs.Searches.{Tells};
ghost use Rattle.cycles.specs.Lists.{LinksHold, links_in};

use crate::lists::LinkList;
use crate::peeling::{Held, peel, stack, tally};
use crate::tallies::Tally;
use survey::limits::GROUPS;

// In time in proportion to n + e, with no recursion, and with room for one small entry a group.
pub fn has_cycle(list: LinkList) -> bool
    requires { LinksHold list }
    ensures { Tells (Cycle (links_in list.entry)) result }
{
    let links = Held { list };
    let mut w = [Tally { count: 0, first: 0 }; GROUPS];
    tally(&mut w, links);
    let top = stack(&mut w, list.n);
    let peeled = peel(&mut w, links, top);
    peeled < list.n
}
