// The balance rule, past what is said of marks, amounts and links one by one: refusals 17 and 18. It searches for no pick: that what the rule
// accepts is the pick is proved of the rule.
#![tactic(auto)]

mod balances;
mod largest;

ghost use Rattle.survey.specs.Words.{survey_of, marked_set, amounts_of};
ghost use Rattle.survey.specs.Refusals.{Answers};
ghost use Rattle.survey.specs.Answers.{verdict_of};
ghost use Rattle.balance.specs.Rule.{RuleAsks, rule_faults};

use crate::balances::Balances;
use crate::largest::first_left_out;
use counts::Dead;
use entries::Lists;
use refusals::refused;
use survey::answers::Refusal;
use survey::limits::GROUPS;

// What is claimed of a survey: a mark for each group and an amount for each link, in two lists that are lent.
#[derive(Clone, Copy)]
pub struct Claim<'a> {
    pub marks: &'a [u8],
    pub amounts: &'a [u8],
}

// 17 and 18. d is D of the claimed set.
#[tactic(auto, using(crate::proofs::RuleRows::rule_rows))]
pub fn rule_faults(lists: Lists, claim: Claim, d: Dead) -> Result<(), Refusal>
    requires { RuleAsks lists.n lists.e lists.groups.now lists.links.now claim.marks.now claim.amounts.now d.0 }
    ensures { Answers (rule_faults (survey_of lists.entry.n lists.entry.e lists.entry.groups.now lists.entry.links.now)
        (marked_set claim.entry.marks.now) (amounts_of claim.entry.amounts.now)) (verdict_of result) }
{
    let mut balances = Balances {
        credit: [0u64; GROUPS],
        debit: [0u64; GROUPS],
    };
    balances.put(lists, claim, d);
    if let Some(g) = balances.first_above(lists.n) {
        return Err(refused(17, g));
    }
    // No balance is above 0, so what a debit is above its credit is the lack, and the debits are needed no more.
    balances.put_lacks(lists.n);
    if let Some(g) = first_left_out(lists, claim, &balances.debit) {
        return Err(refused(18, g));
    }
    Ok(())
}
