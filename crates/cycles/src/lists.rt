// A list of links, lent as bytes or standing in the blocks of a file: how many it has, where they stand, and of how many groups they are.
ghost use Rattle.std.specs.Prelude.{◌<◌};
ghost use Rattle.cycles.specs.Within.{EachWithin, each_within_prop};

use entries::{Entries, Link};

// Each of the e links is there; both its ends are to be below n.
#[derive(Clone, Copy)]
pub struct LinkList<'a> {
    pub n: usize,
    pub e: usize,
    pub entries: Entries<'a>,
    pub ghost fit: { EachWithin e entries.bytes.now entries.stand } by { each_within_prop e entries.bytes.now entries.stand },
}

impl<'a> LinkList<'a> {
    ghost use Rattle.entries.specs.Entries.{LinkIs};
    ghost use Rattle.cycles.specs.Lists.{link_in};

    pub fn link(self, k: usize) -> Link
        requires { k < self.e }
        ensures { LinkIs result (link_in self.entry k) }
    {
        self.entries.link(k)
    }
}
