// What the header of a survey file says, and the blocks that follow from it: how many, of which kind, and which of their words are in use.
// A header, as many blocks as the groups fill, and as many as the links do (Specification 9).
#![tactic(auto)]

ghost use Rattle.std.specs.Prelude.{◌≡◌, ◌-◌, ◌*◌, ◌^◌, ◌<◌};
ghost use Rattle.survey.specs.Limits.{block_pairs};
ghost use Rattle.survey.specs.SurveyFile.{n_in, e_in, blocks_for, first_link_block, blocks_needed, kind_of, pair_words, used_words};
ghost use Rattle.views.specs.Views.{Within};
ghost use Rattle.layout.specs.Kinds.{number_of};
ghost use Rattle.layout.specs.Sizes.{Countable};

use survey::answers::Size;
use views::view::block_word;

// Which kind a block is of, with the number that it says it by.
#[derive(Clone, Copy)]
pub enum Kind {
    Header = 1,
    Groups = 2,
    Links = 3,
}

// The header has n and e after its number and its kind.
pub fn size_in(file: &[u8]) -> Size
    requires { Within file.now 0 }
    ensures groups { (result.n ≡ n_in file.now) × (result.n < 2 ^ 32) }
    ensures links { (result.e ≡ e_in file.now) × (result.e < 2 ^ 32) }
{
    Size {
        n: block_word(file, 0, 2) as usize,
        e: block_word(file, 0, 3) as usize,
    }
}

// So many blocks have k pairs.
fn blocks_for(k: usize) -> usize
    ensures { result ≡ blocks_for k }
{
    k.div_ceil(62)
}

pub fn first_link_block(n: usize) -> usize
    ensures { result ≡ first_link_block n }
{
    1 + blocks_for(n)
}

pub fn blocks_needed(size: Size) -> usize
    ensures { result ≡ blocks_needed size.n size.e }
{
    first_link_block(size.n) + blocks_for(size.e)
}

pub fn kind_of(n: usize, b: usize) -> Kind
    ensures { number_of result ≡ kind_of n b }
{
    if b == 0 {
        return Kind::Header;
    }
    if first_link_block(n) <= b {
        return Kind::Links;
    }
    Kind::Groups
}

// The words in use where so many of k pairs stand in earlier blocks: none of them is left where the earlier blocks have room for all.
fn words_left(k: usize, earlier: usize) -> usize
    requires { (k < 2 ^ 32) × (earlier < 2 ^ 55) }
    ensures { result ≡ pair_words (k - block_pairs * earlier) }
{
    2 + 2 * k.saturating_sub(62 * earlier)
}

// From this word on the words of block b are unused: its kind decides, which is the right one for its place.
pub fn used_words(kind: Kind, size: Size, b: usize) -> usize
    requires { Countable size.n size.e b × (number_of kind ≡ kind_of size.n b) }
    ensures { result ≡ used_words size.n size.e b }
{
    match kind {
        Kind::Header => 4,
        Kind::Groups => words_left(size.n, b - 1),
        Kind::Links => words_left(size.e, b - first_link_block(size.n)),
    }
}
