// The one number that each answer is over the boundary.
#![tactic(auto)]

ghost use Rattle.std.specs.Prelude.{◌≡◌, ◌<◌};
ghost use Rattle.survey.specs.Answers.{sort_number, refusal_number, reading_number, choice_number, judgement_number};
ghost use Rattle.boundary.specs.Packed.{SmallRefusal, SmallReading, SmallChoice, SmallJudgement};

use refusals::place_number;
use survey::answers::{Place, Refusal, Size};

// Specification 12.2: the sort of a place.
// Kept: named functions, and no `impl From<..> for u64`. A place has two numbers, its sort and its own (refusals::place_number), and `from` names neither;
// an answer has one, but only a small one (SmallRefusal and its like), and the trait's clause has no room for that `requires`. Three matches below, since each
// part's success has a number of its own, and that is all there is to each.
fn sort_number(p: Place) -> u64
    ensures { (result ≡ sort_number p) × (result < 4) }
{
    match p {
        Place::Nothing => 0,
        Place::Block(_) => 1,
        Place::Group(_) => 2,
        Place::Link(_) => 3,
    }
}

// Specification 12.2, refused.
pub fn refusal_number(r: Refusal) -> u64
    requires { SmallRefusal r }
    ensures { result ≡ refusal_number r }
{
    let place = r.place;
    let sort = sort_number(place);
    let k = place_number(place);
    r.number + 256 * sort + 65_536 * (k as u64)
}

pub fn reading_number(r: Result<Size, Refusal>) -> u64
    requires { SmallReading r }
    ensures { result ≡ reading_number r }
{
    match r {
        Ok(size) => 65_536 * (size.n as u64) + 4_294_967_296 * (size.e as u64),
        Err(refusal) => refusal_number(refusal),
    }
}

pub fn choice_number(c: Result<u64, Refusal>) -> u64
    requires { SmallChoice c }
    ensures { result ≡ choice_number c }
{
    match c {
        Ok(rounds) => 65_536 * rounds,
        Err(refusal) => refusal_number(refusal),
    }
}

pub fn judgement_number(j: Result<(), Refusal>) -> u64
    requires { SmallJudgement j }
    ensures { result ≡ judgement_number j }
{
    match j {
        Ok(()) => 0,
        Err(refusal) => refusal_number(refusal),
    }
}
