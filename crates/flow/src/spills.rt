// A group sends through its links, one after the other, to groups whose turn is still to come: those that are marked 1 or 3. It goes on until
// nothing is left, so that a wave carries as much as it can, and fewer are needed.
ghost use Rattle.std.specs.Prelude.{◌≡◌};
ghost use Rattle.flow.specs.Tides.{SameTide};
ghost use Rattle.flow.specs.Waves.{Offerable, Offered, least_for, Spillable, Spilled};

use crate::ends::end_in;
use crate::tides::{Channels, Tide};
use crate::ways::note;
use survey::limits::{GROUPS, LINKS};

// Paying asks no amount of a link, giving back some.
fn least_for(end: usize) -> u64
    ensures { result ≡ least_for end }
{
    u64::from(end == 0)
}

impl Tide<'_> {
    // Through link k to q, if the link has the least amount that a send takes (few have it for giving back) and q is still to come. What the link's
    // from can give back then is noted.
    fn offer(&mut self, k: usize, g: usize, q: usize, least: u64, ends: &[u8], t: &[u8])
        requires { Offerable k g q least ends.now self.old.amounts.now self.old.excess.now self.old.lack.now self.old.ways.now t.now }
        ensures offered { Offered k g q least ends.now self.old.amounts.now self.old.excess.now self.old.lack.now self.old.ways.now t.now
            self.new.amounts.now self.new.excess.now self.new.lack.now self.new.ways.now }
        ensures same { SameTide self.old self.new }
    {
        if self.amounts[k] < least {
            return;
        }
        if t[q] % 2 != 1 {
            return;
        }
        self.send(k, g, ends, t);
        let from = end_in(ends, k, 0);
        let to = end_in(ends, k, 1);
        note(from, to, self.amounts[k], self.ways);
    }

    // Along the chain of g by one of its ends, until nothing is left: at 1 along the links to g, which it pays by; at 0 along those from g, by which
    // it gives back.
    pub fn spill(&mut self, net: &Channels, end: usize, g: usize, t: &[u8])
        requires { Spillable net.now.n net.now.e end g net.now.ends.now
            self.old.amounts.now self.old.excess.now self.old.lack.now self.old.ways.now t.now }
        ensures spilled { Spilled net.now.n net.now.e net.now.e end g net.now.ends.now self.old.amounts.now self.old.excess.now self.old.lack.now self.old.ways.now t.now
            self.new.amounts.now self.new.excess.now self.new.lack.now self.new.ways.now }
        ensures same { SameTide self.old self.new }
    {
        let least = least_for(end);
        let mut k = net.chains[GROUPS * end + g] as usize;
        while k < net.e {
            if self.excess[g] == 0 {
                return;
            }
            let q = end_in(net.ends, k, 1 - end);
            self.offer(k, g, q, least, net.ends, t);
            k = net.chains[2 * GROUPS + LINKS * end + k] as usize;
        }
    }
}
