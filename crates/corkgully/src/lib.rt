// What the ingest tool links (Specification 12). What goes in is numbers and slices of bytes. Each answer is one number; crates/boundary packs it.
// Kept: n, e and the lists apart, and numbers for answers, over the C interface: rust/src/boundary.rs calls these by their C names.
#![tactic(auto)]

ghost use Rattle.corkgully.specs.Numbers.{ReadNumber, ChooseNumber, CheckNumber};

use boundary::{choice_number, judgement_number, reading_number};
use checker::check;
use chooser::choose;
use entries::Lists;
use reader::read;

// A survey file, and two lists to fill: 128 groups and 1,024 links, or longer.
#[unsafe(no_mangle)]
#[tactic(auto, using(crate::proofs::Fit::reading_small))]
pub extern "C" fn corkgully_read(file: &[u8], groups: &mut [u8], links: &mut [u8]) -> u64
    ensures { ReadNumber file.now groups.old links.old result groups.new links.new }
{
    reading_number(read(file, groups, links))
}

// A survey as lists, and two lists to fill: 128 marks and 1,024 amounts, or longer.
#[unsafe(no_mangle)]
#[tactic(auto, using(crate::proofs::Fit::choice_small))]
pub extern "C" fn corkgully_choose(
    n: u64,
    e: u64,
    groups: &[u8],
    links: &[u8],
    marks: &mut [u8],
    amounts: &mut [u8],
) -> u64
    ensures { ChooseNumber n e groups.now links.now marks.old amounts.old result marks.new amounts.new }
{
    let lists = Lists {
        n: n as usize,
        e: e as usize,
        groups,
        links,
    };
    choice_number(choose(lists, marks, amounts))
}

// A claim on a survey, both as lists. n and e are judged as they come, before any entry is read; nothing is written.
#[unsafe(no_mangle)]
pub extern "C" fn corkgully_check(
    n: u64,
    e: u64,
    groups: &[u8],
    links: &[u8],
    marks: &[u8],
    amounts: &[u8],
) -> u64
    ensures { CheckNumber n e groups.now links.now marks.now amounts.now result }
{
    let lists = Lists {
        n: n as usize,
        e: e as usize,
        groups,
        links,
    };
    judgement_number(check(lists, marks, amounts))
}
