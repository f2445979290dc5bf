// The balances (Specification 7.2): weights, and then amounts. What is added and what is taken away
// are kept apart, as credit and debit, so that nothing goes below 0.
ghost use Rattle.std.specs.Prelude.{◌≡◌, ◌≤◌, ◌+◌, ◌-◌, get_or, set};
ghost use Rattle.survey.specs.Limits.{group_limit};
ghost use Rattle.refusals.specs.Searches.{Finds};
ghost use Rattle.weights.specs.Put.{PutFirst};
ghost use Rattle.balance.specs.Rule.{RuleAsks};
ghost use Rattle.balance.specs.Balances.{AddAsks, AmountsAsk, AmountsAdded, BalancesPut, above_row, LacksAsk};

use crate::Claim;
use counts::{Dead, Live};
use entries::{Lists, amount_at};
use survey::limits::GROUPS;
use weights::{marked_sum, put_weights};

// One place of a list becomes larger.
fn add_at(list: &mut [u64], g: usize, amount: u64)
    requires { AddAsks list.old g amount }
    ensures { list.new ≡ set list.old g (get_or list.old g 0 + amount) }
{
    list[g] += amount;
}

// The two halves of each group's balance.
// Kept: two lists, and no list of pairs: weights::put_weights fills two lists, and flow::draining::drained takes the lacks as a list of their own, so that pairs
// would be copied together for the one and apart for the other.
#[derive(Drop)]
pub struct Balances {
    pub credit: [u64; GROUPS],
    pub debit: [u64; GROUPS],
}

impl Balances {
    // The amount of a link (p, q) goes to the credit of p and to the debit of q.
    fn add_amounts(&mut self, lists: Lists, amounts: &[u8])
        requires { AmountsAsk lists.e lists.links.now amounts.now self.old.credit self.old.debit }
        ensures { AmountsAdded lists.entry.e lists.entry.links.now amounts.now self.old.credit self.old.debit self.new.credit self.new.debit }
    {
        for k in 0..lists.e {
            let link = lists.link(k);
            let amount = amount_at(amounts, k);
            add_at(&mut self.credit, link.from, amount);
            add_at(&mut self.debit, link.to, amount);
        }
    }

    // Weights of the claimed set, and then amounts. d is D of the set.
    pub fn put(&mut self, lists: Lists, claim: Claim, d: Dead)
        requires { RuleAsks lists.n lists.e lists.groups.now lists.links.now claim.marks.now claim.amounts.now d.0 }
        ensures { BalancesPut lists.entry.n lists.entry.e lists.entry.groups.now lists.entry.links.now
            claim.entry.marks.now claim.entry.amounts.now self.new.credit self.new.debit }
    {
        let l = marked_sum::<Live>(lists, claim.marks);
        put_weights(lists, d, l, &mut self.credit, &mut self.debit);
        self.add_amounts(lists, claim.amounts);
    }

    // 17: the lowest group whose balance is above 0.
    pub fn first_above(&self, n: usize) -> Option<usize>
        requires { n ≤ group_limit }
        ensures { Finds (above_row n self.now.credit self.now.debit) result }
    {
        (0..n).find(|g| self.debit[*g] < self.credit[*g])
    }

    // Where no balance is above 0, each is what it lacks: the debit becomes that, and the credit stays.
    pub fn put_lacks(&mut self, n: usize)
        requires { LacksAsk n self.old.credit self.old.debit }
        ensures lacks { PutFirst n (λ g. get_or self.old.debit g 0 - get_or self.old.credit g 0) self.old.debit self.new.debit }
        ensures credit { self.new.credit ≡ self.old.credit }
    {
        for g in 0..n {
            self.debit[g] -= self.credit[g];
        }
    }
}
