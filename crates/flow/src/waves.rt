// Waves. One wave grows the set that drains and then goes back through the order of joining: each group with an excess sends it on to one that
// joined earlier, so that what reaches a group with a lack lowers that. No wave is in vain, since the total lack falls with each.
ghost use Rattle.flow.specs.Tides.{SameTide};
ghost use Rattle.flow.specs.Waves.{Apartable, SetApart, Turnable, Turned, Pourable, Poured, Wavable, WavedOnce, WavesAsk, WavedAll, WavesStart, WavesEnd};

use crate::chains::chain;
use crate::drains::Queue;
use crate::sizes::{CHAINS, ROWS};
use crate::tides::{Channels, Tide};
use crate::ways::find_ways;
use survey::limits::GROUPS;

// The groups that began the wave are marked 3: each of them takes at most its lack.
// Kept: marks are numbers, since they stand in the list of bytes that the caller lends (clauses of `heaviest` and `drained`).
fn set_apart(t: &mut [u8], order: &[u16], started: usize)
    requires { Apartable t.old order.now started }
    ensures { SetApart t.old order.now started t.new }
{
    for g in &order[..started] {
        t[*g as usize] = 3;
    }
}

impl Tide<'_> {
    // The turn of group g: it gives back what it can through the links from it, and pays the rest through the links to it. Whether it had something
    // to send.
    fn turn(&mut self, net: &Channels, g: usize, t: &[u8]) -> bool
        requires { Turnable net.now.n net.now.e g net.now.ends.now
            self.old.amounts.now self.old.excess.now self.old.lack.now self.old.ways.now t.now }
        ensures turned { Turned net.now.n net.now.e g net.now.ends.now self.old.amounts.now self.old.excess.now self.old.lack.now self.old.ways.now t.now
            self.new.amounts.now self.new.excess.now self.new.lack.now self.new.ways.now result }
        ensures same { SameTide self.old self.new }
    {
        if self.excess[g] == 0 {
            return false;
        }
        self.spill(net, 0, g, t);
        self.spill(net, 1, g, t);
        true
    }

    // Back through the order, to the groups that began it: those have a lack and nothing to send. A group that is passed is marked 2, so that those
    // marked 1 or 3 are still to come. Whether a group had something to send.
    // Kept: the places backwards, as a range: `order[started..count].iter().rev()` is no shorter, and its proof has to follow what the iterator has left.
    fn pour(
        &mut self,
        net: &Channels,
        t: &mut [u8],
        order: &[u16],
        started: usize,
        count: usize,
    ) -> bool
        requires { Pourable net.now.n net.now.e net.now.ends.now
            self.old.amounts.now self.old.excess.now self.old.lack.now self.old.ways.now t.old order.now started count }
        ensures poured { Poured net.now.n net.now.e net.now.ends.now self.old.amounts.now self.old.excess.now self.old.lack.now self.old.ways.now t.old order.now started count
            self.new.amounts.now self.new.excess.now self.new.lack.now self.new.ways.now t.new result }
        ensures same { SameTide self.old self.new }
    {
        let mut sent = false;
        for i in (started..count).rev() {
            let g = order[i] as usize;
            t[g] = 2;
            sent |= self.turn(net, g, t);
        }
        sent
    }

    // One wave. Whether a group had something to send: where none had, the marks say which groups drain.
    fn wave(&mut self, net: &Channels, t: &mut [u8], order: &mut [u16]) -> bool
        requires { Wavable net.now.n net.now.e net.now.ends.now
            self.old.amounts.now self.old.excess.now self.old.lack.now self.old.ways.now t.old order.old }
        ensures waved { WavedOnce net.now.n net.now.e net.now.ends.now self.old.amounts.now self.old.excess.now self.old.lack.now self.old.ways.now t.old order.old
            self.new.amounts.now self.new.excess.now self.new.lack.now self.new.ways.now t.new order.new result }
        ensures same { SameTide self.old self.new }
    {
        let mut queue = Queue {
            n: net.n,
            t: &mut *t,
            order: &mut *order,
            count: 0,
        };
        // Kept: lack and ways by names of their own: with `&*self.lack` in a call the check no longer knows afterwards what stands in it.
        let lack = &mut *self.lack;
        queue.begin(lack);
        let started = queue.count;
        let ways = &mut *self.ways;
        queue.grow(ways);
        let count = queue.count;
        set_apart(t, order, started);
        self.pour(net, t, order, started, count)
    }

    // Wave after wave, until no group that drains has an excess.
    fn waves(&mut self, net: &Channels, t: &mut [u8])
        requires { WavesAsk net.now.n net.now.e net.now.ends.now
            self.old.amounts.now self.old.excess.now self.old.lack.now self.old.ways.now t.old }
        ensures waved { WavedAll net.now.n net.now.e net.now.ends.now self.old.amounts.now self.old.excess.now self.old.lack.now self.old.ways.now t.old
            self.new.amounts.now self.new.excess.now self.new.lack.now self.new.ways.now t.new }
        ensures same { SameTide self.old self.new }
    {
        let mut order = [0u16; GROUPS];
        while self.wave(net, t, &mut order) {}
    }
}

// The waves with what they go by: the two chains of each group, and the ways.
// Kept: n, e and ends stand apart here, in `chain` and in `find_ways`, since a net is made of them and of chains, which are made here.
pub fn settle(
    n: usize,
    e: usize,
    ends: &[u8],
    amounts: &mut [u64],
    excess: &mut [u64],
    lack: &mut [u64],
    t: &mut [u8],
)
    requires { WavesStart n e ends.now amounts.old excess.old lack.old t.old }
    ensures { WavesEnd n e ends.now amounts.old excess.old lack.old t.old amounts.new excess.new lack.new t.new }
{
    let mut chains = [e as u16; CHAINS];
    chain(ends, n, e, 0, &mut chains);
    chain(ends, n, e, 1, &mut chains);
    let mut ways = [0u64; ROWS];
    find_ways(n, e, ends, amounts, &mut ways);
    let net = Channels {
        n,
        e,
        ends,
        chains: &chains,
    };
    let mut tide = Tide {
        amounts,
        excess,
        lack,
        ways: &mut ways,
    };
    tide.waves(&net, t);
}
