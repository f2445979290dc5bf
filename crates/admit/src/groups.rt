// What is looked for at the groups: 8, a count above its limit, and 12, that nothing is dead in any of them.
ghost use Rattle.std.specs.Prelude.{◌<◌};
ghost use Rattle.survey.specs.Faults.{bad_count, no_dead};
ghost use Rattle.refusals.specs.Searches.{Finds, Tells};
ghost use Rattle.admit.specs.Groups.{groups_in};

use crate::lists::GroupList;

// The limit of a dead count and of a live count (Specification 2).
const COUNT: u64 = 1_000_000;

fn above_limit(list: GroupList, g: usize) -> bool
    requires { g < list.n }
    ensures { Tells ((bad_count (groups_in list.entry)).at g) result }
{
    let group = list.group(g);
    COUNT < group.dead.0 || COUNT < group.live.0
}

// 8: the lowest group at fault.
pub fn first_above_limit(list: GroupList) -> Option<usize>
    ensures { Finds (bad_count (groups_in list.entry)) result }
{
    (0..list.n).find(|g| above_limit(list, *g))
}

// 12: no group that has something dead.
pub fn none_dead(list: GroupList) -> bool
    ensures { Tells ((no_dead (groups_in list.entry)).at 0) result }
{
    (0..list.n).all(|g| list.group(g).dead.0 == 0)
}
