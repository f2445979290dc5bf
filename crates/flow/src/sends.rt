// One send through a link. By a link (p, q), q pays p: so q sends by raising the amount, and p sends by giving back some of it.
ghost use Rattle.std.specs.Prelude.{◌≡◌};
ghost use Rattle.flow.specs.Tides.{SameTide};
ghost use Rattle.flow.specs.Sends.{Receivable, Receives, Movable, Moves, Takes, Sendable, Sends};

use crate::ends::end_in;
use crate::tides::Tide;

// What a group takes of x: one that began the wave, which is marked 3, at most its lack. If it were overfilled, it would give back in the next wave.
fn takes(mark: u8, lack: u64, x: u64) -> u64
    ensures { Takes mark lack x result }
{
    if mark == 3 {
        return x.min(lack);
    }
    x
}

// Group p gets d: it loses lack first, and the rest is its excess.
// Kept: with a branch. The saturating form, together with `self.count += 1` in the queue, made the waves about 6 % slower (662 µs against 625, the families of bench/).
fn receive(p: usize, d: u64, excess: &mut [u64], lack: &mut [u64])
    requires { Receivable p d excess.old lack.old }
    ensures { Receives p d excess.old lack.old excess.new lack.new }
{
    let short = lack[p];
    if d <= short {
        lack[p] = short - d;
        return;
    }
    lack[p] = 0;
    excess[p] += d - short;
}

impl Tide<'_> {
    // Group g gives d to p, and link k has an amount for it.
    fn shift(&mut self, k: usize, g: usize, p: usize, d: u64, amount: u64)
        requires { Movable k g p d self.old.amounts.now self.old.excess.now self.old.lack.now }
        ensures moves { Moves k g p d amount self.old.amounts.now self.old.excess.now self.old.lack.now self.new.amounts.now self.new.excess.now self.new.lack.now }
        ensures ways { self.new.ways.now ≡ self.old.ways.now }
        ensures same { SameTide self.old self.new }
    {
        self.excess[g] -= d;
        receive(p, d, self.excess, self.lack);
        self.amounts[k] = amount;
    }

    // Group g sends what the other end of link k takes: of its excess, or, giving back, of no more than the amount.
    pub fn send(&mut self, k: usize, g: usize, ends: &[u8], t: &[u8])
        requires { Sendable k g ends.now self.old.amounts.now self.old.excess.now self.old.lack.now t.now }
        ensures sends { Sends k g ends.now self.old.amounts.now self.old.excess.now self.old.lack.now t.now self.new.amounts.now self.new.excess.now self.new.lack.now }
        ensures ways { self.new.ways.now ≡ self.old.ways.now }
        ensures same { SameTide self.old self.new }
    {
        let amount = self.amounts[k];
        let x = self.excess[g];
        let q = end_in(ends, k, 1);
        if q == g {
            let p = end_in(ends, k, 0);
            let d = takes(t[p], self.lack[p], x);
            self.shift(k, g, p, d, amount + d);
            return;
        }
        let most = x.min(amount);
        let d = takes(t[q], self.lack[q], most);
        self.shift(k, g, q, d, amount - d);
    }
}
