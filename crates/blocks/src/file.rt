// Refusals 2 to 7, in the order of their numbers: each is looked for where none before it was found. The survey's own faults come after these.
ghost use Rattle.survey.specs.Refusals.{Answers};
ghost use Rattle.survey.specs.Answers.{verdict_of};
ghost use Rattle.views.specs.Views.{Within};
ghost use Rattle.blocks.specs.FileFaults.{opening_faults, layout_faults, block_faults};

use crate::searches::{first_bad_check, first_bad_kind, first_bad_unused};
use crate::tests::{bad_length, blocks_fit, number_and_kind};
use layout::{Kind, size_in};
use refusals::{out_of_range, refused, refused_whole};
use survey::answers::Refusal;

// 2 to 4.
fn opening_faults(file: &[u8]) -> Result<(), Refusal>
    ensures { Answers (opening_faults file.now) (verdict_of result) }
{
    if bad_length(file) {
        return Err(refused_whole(2));
    }
    if let Some(b) = first_bad_check(file) {
        return Err(refused(3, b));
    }
    if !number_and_kind(file, 0, Kind::Header) {
        return Err(refused(4, 0));
    }
    Ok(())
}

// 5 to 7, of a file that has its header.
fn layout_faults(file: &[u8]) -> Result<(), Refusal>
    requires { Within file.now 0 }
    ensures { Answers (layout_faults file.now) (verdict_of result) }
{
    if out_of_range(size_in(file)) {
        return Err(refused_whole(5));
    }
    if !blocks_fit(file) {
        return Err(refused_whole(6));
    }
    if let Some(b) = first_bad_kind(file) {
        return Err(refused(6, b));
    }
    if let Some(b) = first_bad_unused(file) {
        return Err(refused(7, b));
    }
    Ok(())
}

// 2 to 7.
pub fn block_faults(file: &[u8]) -> Result<(), Refusal>
    ensures { Answers (block_faults file.now) (verdict_of result) }
{
    opening_faults(file)?;
    layout_faults(file)
}
