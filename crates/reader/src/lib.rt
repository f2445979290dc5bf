// The reader of survey files. It looks at the lent lists, then at the blocks, then at the survey they hold, and copies the survey out only when
// nothing is at fault: so a refusal has changed nothing. Every word that it takes from the file, it takes through the view of a block.
#![tactic(auto)]

ghost use Rattle.survey.specs.Refusals.{Answers};
ghost use Rattle.survey.specs.Faults.{file_faults};
ghost use Rattle.survey.specs.Answers.{verdict_of};
ghost use Rattle.survey.specs.Promises.{ReaderSays};
ghost use Rattle.refusals.specs.Searches.{Tells};
ghost use Rattle.reader.specs.Lent.{ListsShort};

use admit::admit;
use blocks::block_faults;
use copies::fill;
use entries::{Entries, whole_entries};
use layout::{first_link_block, size_in};
use refusals::refused_whole;
use survey::answers::{Refusal, Size};
use survey::limits::{GROUPS, LINKS};
use survey::stands::Stand;

// The groups stand in the blocks from this one on, after the header.
const GROUP_BLOCK: usize = 1;

// 1: a list has room for fewer than 128 groups or 1,024 links (Specification 11).
// Kept: calls tests these two lists and two more, by one row of the table for all four (`OneShort` of `call_lists`): each test is one line, and is proved of its row.
#[tactic(auto, unfolding(survey::specs::Faults::OneShort))]
fn lists_short(groups: &[u8], links: &[u8]) -> bool
    ensures { Tells (ListsShort groups.now links.now) result }
{
    whole_entries(groups) < GROUPS || whole_entries(links) < LINKS
}

// 2 to 12: the file's blocks, and then the survey in them, where it stands.
fn faults_in(file: &[u8]) -> Result<(), Refusal>
    ensures { Answers (file_faults file.now) (verdict_of result) }
{
    block_faults(file)?;
    let size = size_in(file);
    let groups = Entries {
        bytes: file,
        stand: Stand::Blocks(GROUP_BLOCK),
    };
    let links = Entries {
        bytes: file,
        stand: Stand::Blocks(first_link_block(size.n)),
    };
    admit(size, groups, links)
}

pub fn read(file: &[u8], groups: &mut [u8], links: &mut [u8]) -> Result<Size, Refusal>
    ensures { ReaderSays file.now groups.old links.old result groups.new links.new }
{
    if lists_short(groups, links) {
        return Err(refused_whole(1));
    }
    faults_in(file)?;
    let size = size_in(file);
    let link_block = first_link_block(size.n);
    fill(groups, size.n, file, GROUP_BLOCK);
    fill(links, size.e, file, link_block);
    Ok(size)
}
