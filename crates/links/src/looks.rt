// What is looked for at the links, one after the other: 9, an end that is no group, and 10, a link that does not come after the one before it.
ghost use Rattle.std.specs.Prelude.{◌<◌};
ghost use Rattle.survey.specs.Faults.{bad_end, bad_order};
ghost use Rattle.refusals.specs.Searches.{Finds, Tells};
ghost use Rattle.cycles.specs.Lists.{links_in};

use cycles::lists::LinkList;

fn end_outside(list: LinkList, k: usize) -> bool
    requires { k < list.e }
    ensures { Tells ((bad_end (links_in list.entry)).at k) result }
{
    let link = list.link(k);
    list.n <= link.from || list.n <= link.to
}

// 9: the lowest link at fault.
pub fn first_outside(list: LinkList) -> Option<usize>
    ensures { Finds (bad_end (links_in list.entry)) result }
{
    (0..list.e).find(|k| end_outside(list, *k))
}

// The first link has none before it.
fn not_above(list: LinkList, k: usize) -> bool
    requires { k < list.e }
    ensures { Tells ((bad_order (links_in list.entry)).at k) result }
{
    if k == 0 {
        return false;
    }
    let last = list.link(k - 1);
    let link = list.link(k);
    (link.from, link.to) <= (last.from, last.to)
}

// 10: the lowest link at fault, which is the later of the two.
pub fn first_not_above(list: LinkList) -> Option<usize>
    ensures { Finds (bad_order (links_in list.entry)) result }
{
    (0..list.e).find(|k| not_above(list, *k))
}
