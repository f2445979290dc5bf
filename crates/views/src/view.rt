// The view of a block (Specification 9): the block's bytes, where they were lent, and its number. The functions over it are few and thin, each over one on a
// slice. All other code reads a file by `block_word`, `block_check` and `block_numbered`, whose parameters are plain, entries too (`Entries::pair`): no
// word of a file is read past the view.
ghost use Rattle.std.specs.Prelude.{◌≡◌, ◌+◌, ◌*◌, ◌<◌, ◌≤◌, length, ◌==◌};
ghost use Rattle.survey.specs.Limits.{block_bytes, content_words};
ghost use Rattle.survey.specs.Words.{word};
ghost use Rattle.survey.specs.SurveyFile.{block_word, number_in};
ghost use Rattle.views.specs.Views.{Within, block_of};

use words::word_at;

#[derive(Clone, Copy)]
pub struct Block<'a> {
    pub bytes: &'a [u8],
    pub number: usize,
    pub ghost whole: { length bytes.now ≡ block_bytes },
}

impl<'a> Block<'a> {
    ghost use Rattle.views.specs.BlockViews.{Views};

    // The view of block b: nothing is copied.
    #[tactic(auto, using(crate::proofs::ViewLaws::block_length))]
    fn at(file: &'a [u8], b: usize) -> Block<'a>
        requires { Within file.now b }
        ensures { Views result file.now b }
    {
        Block {
            bytes: bytes_of(file, b),
            number: b,
        }
    }

    // A content word of the viewed block.
    fn shown(&self, w: usize) -> u32
        requires { w < content_words }
        ensures { result ≡ word self.now.bytes.now (4 * w) }
    {
        word_of(self.bytes, w)
    }

    // The check words are no content, so they are shown apart.
    fn check_word(&self, which: usize) -> u32
        requires { which < 2 }
        ensures { result ≡ word self.now.bytes.now (4 * (content_words + which)) }
    {
        check_word_of(self.bytes, which)
    }

    // Whether the block's first word is the number that the view knows.
    fn numbered(&self) -> bool
        ensures { result ≡ (word self.now.bytes.now 0 == self.now.number) }
    {
        says_number(self.bytes, self.number)
    }
}

// The bytes of block b, where they stand.
#[tactic(auto, using(crate::proofs::ViewLaws::part_size), unfolding(crate::specs::Views::block_of))]
fn bytes_of<'a>(file: &'a [u8], b: usize) -> &'a [u8]
    requires { Within file.now b }
    ensures { result.now ≡ block_of file.now b }
{
    let start = 512 * b;
    &file[start..start + 512]
}

// Word w of a block's bytes.
fn word_of(bytes: &[u8], w: usize) -> u32
    requires { 4 * w + 4 ≤ length bytes.now }
    ensures { result ≡ word bytes.now (4 * w) }
{
    word_at(bytes, 4 * w)
}

// The check words come after the content: check word 0 or 1 of a block's bytes.
fn check_word_of(bytes: &[u8], which: usize) -> u32
    requires { 4 * (content_words + which) + 4 ≤ length bytes.now }
    ensures { result ≡ word bytes.now (4 * (content_words + which)) }
{
    word_of(bytes, 126 + which)
}

// Whether word 0 of a block's bytes is this number.
fn says_number(bytes: &[u8], number: usize) -> bool
    requires { 4 ≤ length bytes.now }
    ensures { result ≡ (word bytes.now 0 == number) }
{
    let first = word_at(bytes, 0);
    first as usize == number
}

// Word w of block b, through its view.
// Kept: a file and a number, here and below, and that the block is there is a clause: what is promised is a word of the file, and with a view in their hands
// those who ask would first have to say which block of which file it shows.
#[tactic(auto, using(crate::proofs::ViewLaws::viewed_word))]
pub fn block_word(file: &[u8], b: usize, w: usize) -> u32
    requires { Within file.now b × (w < content_words) }
    ensures { result ≡ block_word file.now b w }
{
    Block::at(file, b).shown(w)
}

// Check word 0 or 1 of block b, through its view.
// Kept: `which` is a number and no enum: this function promises word 126 + which, and its clause counts with it.
#[tactic(auto, using(crate::proofs::ViewLaws::viewed_word))]
pub fn block_check(file: &[u8], b: usize, which: usize) -> u32
    requires { Within file.now b × (which < 2) }
    ensures { result ≡ block_word file.now b (content_words + which) }
{
    Block::at(file, b).check_word(which)
}

// Whether word 0 of block b is b, through its view.
#[tactic(auto, using(crate::proofs::ViewLaws::viewed_number))]
pub fn block_numbered(file: &[u8], b: usize) -> bool
    requires { Within file.now b }
    ensures { result ≡ (number_in file.now b == b) }
{
    Block::at(file, b).numbered()
}
