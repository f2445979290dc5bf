// Entries: a group, a link or an amount is 8 bytes. In a lent list entries stand one after the other. The groups and links of a file stand in its blocks, and
// are read there, each through the view of its block: so one function reads a group from either, with no copy.
#![tactic(auto)]

ghost use Rattle.std.specs.Prelude.{◌≡◌};
ghost use Rattle.survey.specs.Words.{lent, entries, group_at, link_at, amounts_of};
ghost use Rattle.counts.specs.Counts.{GroupIs};
ghost use Rattle.entries.specs.Entries.{EntryWithin, PairIs, LinkIs, with_amount};

use counts::{Dead, Group, Live};
use survey::stands::Stand;
use views::view::block_word;
use words::{long_word_at, put_long_word, word_at};

// The two words of an entry.
#[derive(Clone, Copy)]
pub struct Pair {
    pub first: u32,
    pub second: u32,
}

#[derive(Clone, Copy)]
pub struct Link {
    pub from: usize,
    pub to: usize,
}

// A list of entries, wherever they stand.
#[derive(Clone, Copy)]
pub struct Entries<'a> {
    pub bytes: &'a [u8],
    pub stand: Stand,
}

impl<'a> Entries<'a> {
    // Entry k: in a lent list by its bytes, and in a file, 62 to a block, through the view of its block.
    pub fn pair(self, k: usize) -> Pair
        requires { EntryWithin self.bytes.now self.stand k }
        ensures { PairIs result self.entry.bytes.now self.entry.stand k }
    {
        match self.stand {
            Stand::Lent => Pair {
                first: word_at(self.bytes, 8 * k),
                second: word_at(self.bytes, 8 * k + 4),
            },
            Stand::Blocks(start) => Pair {
                first: block_word(self.bytes, start + k / 62, 2 + 2 * (k % 62)),
                second: block_word(self.bytes, start + k / 62, 2 + 2 * (k % 62) + 1),
            },
        }
    }

    pub fn group(self, k: usize) -> Group
        requires { EntryWithin self.bytes.now self.stand k }
        ensures { GroupIs result (group_at self.entry.bytes.now self.entry.stand k) }
    {
        let pair = self.pair(k);
        Group {
            dead: Dead(pair.first as u64),
            live: Live(pair.second as u64),
        }
    }

    pub fn link(self, k: usize) -> Link
        requires { EntryWithin self.bytes.now self.stand k }
        ensures { LinkIs result (link_at self.entry.bytes.now self.entry.stand k) }
    {
        let pair = self.pair(k);
        Link {
            from: pair.first as usize,
            to: pair.second as usize,
        }
    }
}

// A survey given as lists: n groups and e links, one after the other in two lists that are lent.
#[derive(Clone, Copy)]
pub struct Lists<'a> {
    pub n: usize,
    pub e: usize,
    pub groups: &'a [u8],
    pub links: &'a [u8],
}

// Kept: that an entry is there is a clause, and no fact that the type has: `Lists` is what a call lends, before anything of it is known to be there.
impl<'a> Lists<'a> {
    pub fn group(self, g: usize) -> Group
        requires { EntryWithin self.groups.now lent g }
        ensures { GroupIs result (group_at self.entry.groups.now lent g) }
    {
        Entries {
            bytes: self.groups,
            stand: Stand::Lent,
        }
        .group(g)
    }

    pub fn link(self, k: usize) -> Link
        requires { EntryWithin self.links.now lent k }
        ensures { LinkIs result (link_at self.entry.links.now lent k) }
    {
        Entries {
            bytes: self.links,
            stand: Stand::Lent,
        }
        .link(k)
    }
}

// Amounts stand in a lent list alone.
pub fn amount_at(b: &[u8], k: usize) -> u64
    requires { EntryWithin b.now lent k }
    ensures { result ≡ amounts_of b.now k }
{
    long_word_at(b, 8 * k)
}

// A list is as long as it has whole entries (Specification 8).
pub fn whole_entries(b: &[u8]) -> usize
    ensures { result ≡ entries b.now }
{
    b.len() / 8
}

// Into a lent list.
pub fn put_amount(b: &mut [u8], k: usize, x: u64)
    requires { EntryWithin b.old lent k }
    ensures { b.new ≡ with_amount b.old k x }
{
    put_long_word(b, 8 * k, x);
}
