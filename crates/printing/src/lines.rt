// The lines of Specification 14, put on a page.
ghost use Rattle.std.specs.Prelude.{◌≤◌, ◌<◌, length};
ghost use Rattle.survey.specs.Words.{marked_set};
ghost use Rattle.printing.specs.Printing.{survey_line, chosen_line, refused_line, number_line, number_lines};
ghost use Rattle.printing.specs.Pages.{HasRoom, Puts, PutsWithin, Numberable};

use crate::text::Page;
use counts::{Dead, Live};
use refusals::place_number;
use survey::answers::Refusal;

// what each line ends in
const LINE_FEED: u8 = b'\n';

// what marks a picked group
const PICKED: u8 = 1;

impl<'a> Page<'a> {
    // 14.2, the first line.
    pub fn put_survey_line(&mut self, n: usize, e: usize)
        requires { HasRoom 49 self.old }
        ensures { PutsWithin 49 self.old (survey_line n e) self.new }
    {
        self.put_named(b"survey ", n as u64);
        self.put_named(b" ", e as u64);
        self.put_byte(LINE_FEED);
    }

    // 14.2, the second line.
    pub fn put_chosen_line(&mut self, k: usize, d: Dead, l: Live, rounds: u64)
        requires { HasRoom 108 self.old }
        ensures { PutsWithin 108 self.old (chosen_line k d.0 l.0 rounds) self.new }
    {
        self.put_named(b"chosen ", k as u64);
        self.put_named(b" dead ", d.0);
        self.put_named(b" live ", l.0);
        self.put_named(b" rounds ", rounds);
        self.put_byte(LINE_FEED);
    }

    // 14.3, the line of a refusal.
    pub fn put_refused_line(&mut self, r: Refusal)
        requires { HasRoom 50 self.old }
        ensures { Puts self.old (refused_line r) self.new }
    {
        self.put_named(b"refused ", r.number);
        self.put_named(b" ", place_number(r.place) as u64);
        self.put_byte(LINE_FEED);
    }

    // The number of group g on a line of its own, where the group is marked.
    fn put_number(&mut self, g: usize, marks: &[u8])
        requires { (g < length marks.now) × HasRoom 21 self.old }
        ensures { Puts self.old (number_line (marked_set marks.now) g) self.new }
    {
        if marks[g] == PICKED {
            self.put_decimal(g as u64);
            self.put_byte(LINE_FEED);
        }
    }

    // 14.2: the numbers of the picked groups, lowest first.
    // Kept: n beside the marks, of which more are lent. `number_lines` counts with n, as D and L do.
    pub fn put_numbers(&mut self, n: usize, marks: &[u8])
        requires { Numberable n marks.now self.old }
        ensures { Puts self.old (number_lines n (marked_set marks.now)) self.new }
    {
        for g in 0..n {
            self.put_number(g, marks);
        }
    }
}
