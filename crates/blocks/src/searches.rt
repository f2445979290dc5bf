// The lowest block with a fault, of each of three sorts: a search for each, since each is looked for only when no earlier fault is there.
ghost use Rattle.survey.specs.Faults.{bad_check, bad_kind, bad_unused};
ghost use Rattle.refusals.specs.Searches.{Finds};
ghost use Rattle.views.specs.Views.{Within};

use crate::tests::{blocks_in, kind_agrees, unused_are_zero};
use layout::size_in;
use views::sums::check_agrees;

// 3: a check word that is not the block's sum.
pub fn first_bad_check(file: &[u8]) -> Option<usize>
    ensures { Finds (bad_check file.now) result }
{
    (0..blocks_in(file)).find(|b| !check_agrees(file, *b))
}

// 6: a block that says another number or kind than its place asks for.
pub fn first_bad_kind(file: &[u8]) -> Option<usize>
    requires { Within file.now 0 }
    ensures { Finds (bad_kind file.now) result }
{
    let size = size_in(file);
    (0..blocks_in(file)).find(|b| !kind_agrees(file, size.n, *b))
}

// 7: a word past those in use that is not 0.
pub fn first_bad_unused(file: &[u8]) -> Option<usize>
    requires { Within file.now 0 }
    ensures { Finds (bad_unused file.now) result }
{
    let size = size_in(file);
    (0..blocks_in(file)).find(|b| !unused_are_zero(file, size, *b))
}
