// Whether a survey is admitted: refusals 5 and 8 to 12. Its groups and links stand in lent lists, or in a file.
#![tactic(auto)]

mod groups;
mod lists;

ghost use Rattle.survey.specs.Limits.{group_limit, link_limit};
ghost use Rattle.survey.specs.Words.{survey_at};
ghost use Rattle.survey.specs.Refusals.{Answers};
ghost use Rattle.survey.specs.Faults.{list_faults};
ghost use Rattle.survey.specs.Answers.{verdict_of};
ghost use Rattle.admit.specs.Lists.{EntriesFit};

use crate::groups::{first_above_limit, none_dead};
use crate::lists::GroupList;
use cycles::lists::LinkList;
use entries::Entries;
use links::admit_links;
use refusals::{out_of_range, refused, refused_whole};
use survey::answers::{Refusal, Size};

// No list is looked at where n or e is out of range.
pub fn admit(size: Size, groups: Entries, links: Entries) -> Result<(), Refusal>
    requires { EntriesFit size.n group_limit groups.bytes.now groups.stand × EntriesFit size.e link_limit links.bytes.now links.stand }
    ensures { Answers (list_faults (survey_at size.n size.e groups.entry.bytes.now groups.entry.stand links.entry.bytes.now links.entry.stand)) (verdict_of result) }
{
    if out_of_range(size) {
        return Err(refused_whole(5));
    }
    let group_list = GroupList {
        n: size.n,
        entries: groups,
    };
    if let Some(g) = first_above_limit(group_list) {
        return Err(refused(8, g));
    }
    admit_links(LinkList {
        n: size.n,
        e: size.e,
        entries: links,
    })?;
    if none_dead(group_list) {
        return Err(refused_whole(12));
    }
    Ok(())
}
