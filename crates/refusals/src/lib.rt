// Refusals, made for each number of the table with the place that it has, and the one test for a fault that a file and lists share.
#![tactic(auto)]

ghost use Rattle.std.specs.Prelude.{◌≡◌};
ghost use Rattle.survey.specs.Refusals.{place_of};
ghost use Rattle.survey.specs.Faults.{bad_range};
ghost use Rattle.survey.specs.Answers.{place_number};
ghost use Rattle.refusals.specs.Refused.{refusal_at, refusal_whole};
ghost use Rattle.refusals.specs.Searches.{Tells};

use survey::answers::{Place, Refusal, Size};
use survey::limits::{GROUPS, LINKS};

// The table's last column: the sort of place that a fault of this number has, at the block, group or link k.
// Kept: a refusal's number is a number: docs/FORMS.md asks for a match over ranges of them, and this function and the two below answer for every number.
pub fn place_of(number: u64, k: usize) -> Place
    ensures { result ≡ place_of number k }
{
    match number {
        3..=4 | 6..=7 => Place::Block(k),
        8 | 13 | 17..=18 => Place::Group(k),
        9..=10 | 14..=15 => Place::Link(k),
        _ => Place::Nothing,
    }
}

// The refusal of a fault that is looked for at each of some places.
pub fn refused(number: u64, k: usize) -> Refusal
    ensures { result ≡ refusal_at number k }
{
    let place = place_of(number, k);
    Refusal { number, place }
}

// The refusal of a fault whose place is "nothing".
pub fn refused_whole(number: u64) -> Refusal
    ensures { result ≡ refusal_whole number }
{
    Refusal {
        number,
        place: Place::Nothing,
    }
}

// Specification 10.4: a place as a number, 0 where it is nothing.
// Kept: a function with a name, and no `From`: a place has two numbers (boundary::sort_number is the other), and `from` would name neither.
pub fn place_number(p: Place) -> usize
    ensures { result ≡ place_number p }
{
    match p {
        Place::Nothing => 0,
        Place::Block(k) => k,
        Place::Group(k) => k,
        Place::Link(k) => k,
    }
}

// 5: fewer or more groups, or more links, than a survey can have, whether a header says so or a call.
pub fn out_of_range(size: Size) -> bool
    ensures { Tells ((bad_range size.n size.e).at 0) result }
{
    size.n < 1 || GROUPS < size.n || LINKS < size.e
}
