// Growing the set that drains: it begins with the groups that have a lack, and a group joins where it can pay into it. The order in which they
// join is the queue of the growing, breadth first, and the way back for a wave.
ghost use Rattle.flow.specs.Tides.{SameQueue};
ghost use Rattle.flow.specs.Drains.{Beginnable, BeginRoom, Begun, FirstMark, Begins, OthersAsk, OthersOf, Joinable, Joined, Seeable, SawHalf, Growing, Growable, Grown};

use bits::{FULL, cut, leave, lowest};

// Who has joined: of n groups those that t marks, each at one of the first count places of the order. That it is so is no invariant of the type: it
// fails while a group joins, between the mark and the place, and the lists stand behind references.
// Kept: that the lists are the lent ones stays a clause of each method, `same`: it is about two moments, the entry and the exit.
#[derive(Drop)]
pub struct Queue<'a> {
    pub n: usize,
    pub t: &'a mut [u8],
    pub order: &'a mut [u16],
    pub count: usize,
}

// The mark of a group as it begins: 1 where it has a lack.
#[tactic(auto, using(crate::proofs::FirstMarks::marked_lacking, crate::proofs::FirstMarks::marked_level))]
fn first_mark(lack: u64) -> u8
    ensures { FirstMark lack result }
{
    u8::from(0 < lack)
}

// Who has not joined, as bits: all but those that begin it.
fn others_of(order: &[u16], started: usize, others: &mut [u64])
    requires { OthersAsk order.now started others.old }
    ensures { OthersOf order.now started others.old others.new }
{
    for g in &order[..started] {
        cut(others, 0, *g as usize);
    }
}

impl Queue<'_> {
    // Kept: the place is read once, here and in `join`: `self.count += 1`, together with a saturating `receive`, made the waves about 6 % slower.
    // Group g begins it where its mark is 1. Whether it is is not asked: a branch there would go now this way and now that. Where it is 0, the next
    // place of the order is written all the same, and is still free.
    fn begin_at(&mut self, g: usize, lack: u64)
        requires { Beginnable g self.old.t.now self.old.order.now self.old.count }
        ensures begins { Begins g lack self.old.t.now self.old.order.now self.old.count self.new.t.now self.new.order.now self.new.count }
        ensures same { SameQueue self.old self.new }
    {
        let mark = first_mark(lack);
        let place = self.count;
        self.t[g] = mark;
        self.order[place] = g as u16;
        self.count = place + mark as usize;
    }

    // Who begins it stands first in the order.
    pub fn begin(&mut self, lack: &[u64])
        requires { BeginRoom self.old.n lack.now self.old.t.now self.old.order.now }
        ensures begun { Begun self.old.n lack.now self.old.t.now self.old.order.now self.new.t.now self.new.order.now self.new.count }
        ensures same { SameQueue self.old self.new }
    {
        self.count = 0;
        for g in 0..self.n {
            self.begin_at(g, lack[g]);
        }
    }

    // The groups of a word join, the lowest first.
    fn join(&mut self, half: usize, word: u64)
        requires { Joinable self.old.n half word self.old.t.now self.old.order.now self.old.count }
        ensures joined { Joined self.old.n half word self.old.t.now self.old.order.now self.old.count self.new.t.now self.new.order.now self.new.count }
        ensures same { SameQueue self.old self.new }
    {
        let mut left = word;
        while left != 0 {
            let i = lowest(left);
            let g = 64 * half + i;
            let place = self.count;
            self.t[g] = 1;
            self.order[place] = g as u16;
            self.count = place + 1;
            left = leave(left, i);
        }
    }

    // Of one half of the groups, those that can pay into p and have not joined: all at once.
    fn see_half(&mut self, p: usize, half: usize, ways: &[u64], others: &mut [u64])
        requires { Seeable self.old.n p half ways.now others.old self.old.t.now self.old.order.now self.old.count }
        ensures saw { SawHalf self.old.n p half ways.now others.old self.old.t.now self.old.order.now self.old.count
            others.new self.new.t.now self.new.order.now self.new.count }
        ensures same { SameQueue self.old self.new }
    {
        let left = others[half];
        let fresh = ways[2 * p + half] & left;
        others[half] = left ^ fresh;
        self.join(half, fresh);
    }

    // Until each group that joined has been looked at.
    // Kept: a queue, which grows while it is walked; a `for` has its end before the first turn.
    fn grow_into(&mut self, ways: &[u64], others: &mut [u64])
        requires { Growing self.old.n ways.now others.old self.old.t.now self.old.order.now self.old.count }
        ensures grown { Grown self.old.n ways.now self.old.t.now self.old.order.now self.old.count self.new.t.now self.new.order.now self.new.count }
        ensures same { SameQueue self.old self.new }
    {
        let mut at = 0;
        while at < self.count {
            let p = self.order[at] as usize;
            self.see_half(p, 0, ways, others);
            self.see_half(p, 1, ways, others);
            at += 1;
        }
    }

    pub fn grow(&mut self, ways: &[u64])
        requires { Growable self.old.n ways.now self.old.t.now self.old.order.now self.old.count }
        ensures grown { Grown self.old.n ways.now self.old.t.now self.old.order.now self.old.count self.new.t.now self.new.order.now self.new.count }
        ensures same { SameQueue self.old self.new }
    {
        let mut others = [FULL; 2];
        // Kept: the order by a name of its own: with `&*self.order` in the call the check no longer knows afterwards what stands in it.
        let order = &mut *self.order;
        others_of(order, self.count, &mut others);
        self.grow_into(ways, &mut others);
    }
}
