// What a survey is refused for by its links alone: refusals 9 to 11. The links may stand in a lent list or in the blocks of a file.
#![tactic(auto)]

mod looks;

ghost use Rattle.std.specs.Prelude.{◌≤◌};
ghost use Rattle.survey.specs.Limits.{group_limit, link_limit};
ghost use Rattle.survey.specs.Refusals.{Answers};
ghost use Rattle.survey.specs.Answers.{verdict_of};
ghost use Rattle.cycles.specs.Lists.{links_in};
ghost use Rattle.links.specs.LinkFaults.{link_faults};

use crate::looks::{first_not_above, first_outside};
use cycles::has_cycle;
use cycles::lists::LinkList;
use refusals::{refused, refused_whole};
use survey::answers::Refusal;

// 9, then 10, then 11: the cycle test wants ends that are groups, and links that ascend.
pub fn admit_links(list: LinkList) -> Result<(), Refusal>
    requires { (list.n ≤ group_limit) × (list.e ≤ link_limit) }
    ensures { Answers (link_faults (links_in list.entry)) (verdict_of result) }
{
    if let Some(k) = first_outside(list) {
        return Err(refused(9, k));
    }
    if let Some(k) = first_not_above(list) {
        return Err(refused(10, k));
    }
    if has_cycle(list) {
        return Err(refused_whole(11));
    }
    Ok(())
}
