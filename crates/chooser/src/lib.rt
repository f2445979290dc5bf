// The chooser: which groups of a survey may be swept. Rounds over the heaviest closed sets (Specification 6), on local arrays; marks and
// amounts are written once, at the end, so that a refusal leaves the lent lists as they were.
#![tactic(auto)]

mod rounds;

ghost use Rattle.survey.specs.Words.{survey_of};
ghost use Rattle.survey.specs.Promises.{Chooses, ChooserSays};
ghost use Rattle.calls.specs.Calls.{AdmittedCall};

use crate::rounds::Working;
use calls::admit_call;
use entries::Lists;
use survey::answers::Refusal;
use survey::limits::{GROUPS, LINKS};

// The pick of an admitted survey, with its amounts. How many rounds.
#[tactic(auto, using(crate::proofs::EndLaws::all_ask))]
fn choose_admitted(lists: Lists, marks: &mut [u8], amounts: &mut [u8]) -> u64
    requires { AdmittedCall lists.n lists.e lists.groups.now lists.links.now marks.old amounts.old }
    ensures { Chooses (survey_of lists.entry.n lists.entry.e lists.entry.groups.now lists.entry.links.now) result marks.old amounts.old marks.new amounts.new }
{
    let mut working = Working {
        marks: [1; GROUPS],
        amounts: [0; 8 * LINKS],
    };
    let r = working.rounds(lists);
    marks[..lists.n].copy_from_slice(&working.marks[..lists.n]);
    amounts[..8 * lists.e].copy_from_slice(&working.amounts[..8 * lists.e]);
    r
}

#[tactic(auto, using(calls::proofs::CallLaws::admitted_call))]
pub fn choose(lists: Lists, marks: &mut [u8], amounts: &mut [u8]) -> Result<u64, Refusal>
    ensures { ChooserSays lists.entry.n lists.entry.e lists.entry.groups.now lists.entry.links.now marks.old amounts.old result marks.new amounts.new }
{
    admit_call(lists, marks, amounts)?;
    let rounds = choose_admitted(lists, marks, amounts);
    Ok(rounds)
}
