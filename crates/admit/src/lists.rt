// A list of groups, lent as bytes or standing in the blocks of a file: how many it has, and where they stand.
ghost use Rattle.std.specs.Prelude.{◌<◌};
ghost use Rattle.cycles.specs.Within.{EachWithin, each_within_prop};

use counts::Group;
use entries::Entries;

// Each of the n groups is there.
#[derive(Clone, Copy)]
pub struct GroupList<'a> {
    pub n: usize,
    pub entries: Entries<'a>,
    pub ghost fit: { EachWithin n entries.bytes.now entries.stand } by { each_within_prop n entries.bytes.now entries.stand },
}

impl<'a> GroupList<'a> {
    ghost use Rattle.counts.specs.Counts.{GroupIs};
    ghost use Rattle.admit.specs.Groups.{group_in};

    pub fn group(self, g: usize) -> Group
        requires { g < self.n }
        ensures { GroupIs result (group_in self.entry g) }
    {
        self.entries.group(g)
    }
}
