// Rounds (Specification 6): the current set gives weights, by these the heaviest closed set is found, and where that weighs more than 0 it is the
// current set of a further round.
ghost use Rattle.std.specs.Prelude.{◌≤◌, length};
ghost use Rattle.refusals.specs.Searches.{Tells};
ghost use Rattle.chooser.specs.Rounds.{AnyAbove, Listed, Round, AllAsk, Ended};

use counts::{Dead, Live};
use entries::Lists;
use flow::heavy::heaviest;
use survey::limits::{GROUPS, LINKS};
use weights::{marked_sum, put_weights};

// Whether any group's excess is above 0. What the heaviest set weighs is the excess that no group could send on, so this is whether it weighs
// more than 0.
fn any_above(n: usize, excess: &[u64]) -> bool
    requires { n ≤ length excess.now }
    ensures { Tells (AnyAbove n excess.now) result }
{
    excess[..n].iter().any(|x| 0 < *x)
}

// What the rounds work on: the current set as marks, and the amounts that prove it the heaviest of its round.
#[derive(Drop)]
pub struct Working {
    pub marks: [u8; GROUPS],
    pub amounts: [u8; 8 * LINKS],
}

impl Working {
    // One round: its set becomes the current one, and its amounts are left. Whether its total is above 0: then there is a further round.
    #[tactic(auto, using(crate::proofs::RoundLaws::round_steps))]
    fn round(&mut self, lists: Lists) -> bool
        requires { Listed lists.n lists.e lists.groups.now lists.links.now }
        ensures { Round lists.entry.n lists.entry.e lists.entry.groups.now lists.entry.links.now self.old.marks self.old.amounts result
            self.new.marks self.new.amounts }
    {
        let d = marked_sum::<Dead>(lists, &self.marks);
        let l = marked_sum::<Live>(lists, &self.marks);
        let mut plus = [0u64; GROUPS];
        let mut minus = [0u64; GROUPS];
        put_weights(lists, d, l, &mut plus, &mut minus);
        heaviest(
            lists.n,
            lists.e,
            lists.links,
            &mut plus,
            &mut minus,
            &mut self.marks,
            &mut self.amounts,
        );
        any_above(lists.n, &plus)
    }

    // Round after round, from all groups on. How many there were, the last among them.
    pub fn rounds(&mut self, lists: Lists) -> u64
        requires { AllAsk lists.n lists.e lists.groups.now lists.links.now self.old.marks }
        ensures { Ended lists.entry.n lists.entry.e lists.entry.groups.now lists.entry.links.now self.old.marks self.old.amounts result
            self.new.marks self.new.amounts }
    {
        let mut further = 0;
        while self.round(lists) {
            further += 1;
        }
        further + 1
    }
}
