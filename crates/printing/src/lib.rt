// What the program prints of a survey file (Specification 14), put into a list of bytes that is lent.
#![tactic(auto)]

mod lines;
mod text;

ghost use Rattle.std.specs.Prelude.{◌≤◌, ◌≡◌, length};
ghost use Rattle.survey.specs.Sets.{sum, only};
ghost use Rattle.survey.specs.Words.{marked_set};
ghost use Rattle.printing.specs.Printing.{text_limit, Printed};
ghost use Rattle.printing.specs.Pages.{HasRoom, Puts};
ghost use Rattle.printing.specs.Put.{Puttable, ReadSurvey, PutPick, PutFile, marked_text};

use crate::text::Page;
use chooser::choose;
use counts::{Dead, Live};
use entries::Lists;
use reader::read;
use survey::limits::{GROUPS, LINKS};
use weights::marked_sum;

// A list with so many bytes has room for the largest file and one byte more, so that a longer one is seen to be longer ..
pub const FILE_ROOM: usize = 10_753;

// .. and one with so many has room for whatever is printed.
pub const TEXT_ROOM: usize = 1_024;

// How many groups the pick has.
#[tactic(auto, using(crate::proofs::NumberLaws::ones_counted))]
fn count_marked(n: usize, marks: &[u8]) -> usize
    requires { n ≤ length marks.now }
    ensures { result ≡ sum n (λ g. only (marked_set marks.now g) 1) }
{
    marks[..n].iter().filter(|mark| **mark == 1).count()
}

// The text of the pick that is marked.
fn put_marked(lists: Lists, marks: &[u8], rounds: u64, page: &mut Page)
    requires { Puttable lists.n lists.groups.now marks.now page.old }
    ensures { Puts page.old (marked_text lists.entry.n lists.entry.e lists.entry.groups.now marks.now rounds) page.new }
{
    let k = count_marked(lists.n, marks);
    let d = marked_sum::<Dead>(lists, marks);
    let l = marked_sum::<Live>(lists, marks);
    page.put_survey_line(lists.n, lists.e);
    page.put_chosen_line(k, d, l, rounds);
    page.put_numbers(lists.n, marks);
}

// The pick of an admitted survey, chosen and put.
fn put_pick(lists: Lists, page: &mut Page)
    requires { ReadSurvey lists.n lists.e lists.groups.now lists.links.now page.old }
    ensures { PutPick lists.entry.n lists.entry.e lists.entry.groups.now lists.entry.links.now page.old page.new }
{
    let mut marks = [0u8; GROUPS];
    let mut amounts = [0u8; 8 * LINKS];
    match choose(lists, &mut marks, &mut amounts) {
        Err(r) => page.put_refused_line(r),
        Ok(rounds) => put_marked(lists, &marks, rounds, page),
    }
}

// The text of this file.
fn put_file(file: &[u8], page: &mut Page)
    requires { HasRoom text_limit page.old }
    ensures same { page.new.out.ghost_name ≡ page.old.out.ghost_name }
    ensures put { PutFile file.now page.old page.new }
{
    let mut groups = [0u8; 8 * GROUPS];
    let mut links = [0u8; 8 * LINKS];
    match read(file, &mut groups, &mut links) {
        Err(r) => page.put_refused_line(r),
        Ok(size) => {
            let lists = Lists {
                n: size.n,
                e: size.e,
                groups: &groups,
                links: &links,
            };
            put_pick(lists, page)
        }
    }
}

// The text of this file, put at the front of `out`; how many bytes it has.
// Kept: a count beside the list. `Printed` says of the whole list what it is afterwards.
pub fn print_pick(file: &[u8], out: &mut [u8]) -> usize
    requires { text_limit ≤ length out.old }
    ensures { Printed file.now out.old result out.new }
{
    let mut page = Page { out, at: 0 };
    put_file(file, &mut page);
    page.at
}
