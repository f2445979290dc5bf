// The checker of claims: one mark for each group and one amount for each link, held to the balance rule. It writes nothing.
#![tactic(auto)]

mod claims;

ghost use Rattle.survey.specs.Words.{survey_of, amounts_of};
ghost use Rattle.survey.specs.Refusals.{Answers};
ghost use Rattle.survey.specs.Faults.{claim_faults};
ghost use Rattle.survey.specs.Answers.{verdict_of};
ghost use Rattle.survey.specs.Promises.{CheckerSays};
ghost use Rattle.calls.specs.Calls.{AdmittedCall};

use crate::claims::{first_above_limit, first_bad_mark, first_open};
use balance::{Claim, rule_faults};
use calls::admit_call;
use counts::Dead;
use entries::Lists;
use refusals::{refused, refused_whole};
use survey::answers::Refusal;
use weights::marked_sum;

// 13 to 18, of a claim on an admitted survey.
#[tactic(auto, using(crate::proofs::Rows::claim_rows))]
fn claim_faults(lists: Lists, claim: Claim) -> Result<(), Refusal>
    requires { AdmittedCall lists.n lists.e lists.groups.now lists.links.now claim.marks.now claim.amounts.now }
    ensures { Answers (claim_faults (survey_of lists.entry.n lists.entry.e lists.entry.groups.now lists.entry.links.now)
        claim.entry.marks.now (amounts_of claim.entry.amounts.now)) (verdict_of result) }
{
    if let Some(g) = first_bad_mark(lists.n, claim.marks) {
        return Err(refused(13, g));
    }
    if let Some(k) = first_above_limit(lists.e, claim.amounts) {
        return Err(refused(14, k));
    }
    if let Some(k) = first_open(lists, claim.marks) {
        return Err(refused(15, k));
    }
    let d = marked_sum::<Dead>(lists, claim.marks);
    if d.0 == 0 {
        return Err(refused_whole(16));
    }
    rule_faults(lists, claim, d)
}

#[tactic(auto, using(crate::proofs::Rows::call_admitted))]
pub fn check(lists: Lists, marks: &[u8], amounts: &[u8]) -> Result<(), Refusal>
    ensures { CheckerSays lists.entry.n lists.entry.e lists.entry.groups.now lists.entry.links.now marks.now amounts.now result }
{
    admit_call(lists, marks, amounts)?;
    claim_faults(lists, Claim { marks, amounts })
}
