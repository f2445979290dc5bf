// What a call of the chooser or of the checker is refused for before all else: a list that is too short, and then whatever its survey is refused
// for. Both make it their first step, so that past it neither has to ask whether an entry is there.
#![tactic(auto)]

ghost use Rattle.survey.specs.Refusals.{Answers};
ghost use Rattle.survey.specs.Faults.{OneShort, call_lists, chooser_faults};
ghost use Rattle.survey.specs.Answers.{verdict_of};
ghost use Rattle.refusals.specs.Searches.{Tells};

use admit::admit;
use entries::{Entries, Lists, whole_entries};
use refusals::refused_whole;
use survey::answers::{Refusal, Size};
use survey::limits::{GROUPS, LINKS};
use survey::stands::Stand;

// 1: a list has not room for as many entries as a survey can have. A mark is one byte, so a list of marks has as many entries as bytes.
#[tactic(auto, unfolding(survey::specs::Faults::OneShort))]
fn list_short(lists: Lists, marks: &[u8], amounts: &[u8]) -> bool
    ensures { Tells (OneShort (call_lists lists.entry.groups.now lists.entry.links.now marks.now amounts.now)) result }
{
    whole_entries(lists.groups) < GROUPS
        || whole_entries(lists.links) < LINKS
        || marks.len() < GROUPS
        || whole_entries(amounts) < LINKS
}

// 1, 5 and 8 to 12.
pub fn admit_call(lists: Lists, marks: &[u8], amounts: &[u8]) -> Result<(), Refusal>
    ensures { Answers (chooser_faults lists.entry.n lists.entry.e lists.entry.groups.now lists.entry.links.now marks.now amounts.now) (verdict_of result) }
{
    if list_short(lists, marks, amounts) {
        return Err(refused_whole(1));
    }
    let groups = Entries {
        bytes: lists.groups,
        stand: Stand::Lent,
    };
    let links = Entries {
        bytes: lists.links,
        stand: Stand::Lent,
    };
    let size = Size {
        n: lists.n,
        e: lists.e,
    };
    admit(size, groups, links)
}
