// What is asked of a block beside its check, and of the file as a whole: a test for each.
ghost use Rattle.std.specs.Prelude.{◌≡◌};
ghost use Rattle.survey.specs.SurveyFile.{block_count, number_in, kind_in, kind_of, n_in, e_in, blocks_needed, UnusedAreZero};
ghost use Rattle.survey.specs.Faults.{bad_length};
ghost use Rattle.refusals.specs.Searches.{Tells};
ghost use Rattle.views.specs.Views.{Within};
ghost use Rattle.layout.specs.Kinds.{number_of};
ghost use Rattle.layout.specs.Sizes.{Countable};

use layout::{Kind, blocks_needed, kind_of, size_in, used_words};
use survey::answers::Size;
use views::view::{block_numbered, block_word};

pub fn blocks_in(file: &[u8]) -> usize
    ensures { result ≡ block_count file.now }
{
    file.len() / 512
}

// 2: no whole blocks, or none, or more than the largest survey has.
pub fn bad_length(file: &[u8]) -> bool
    ensures { Tells ((bad_length file.now).at 0) result }
{
    let long = file.len();
    long == 0 || 0 < long % 512 || 10_752 < long
}

// 6: as many blocks as n groups and e links have.
pub fn blocks_fit(file: &[u8]) -> bool
    requires { Within file.now 0 }
    ensures { Tells (block_count file.now ≡ blocks_needed (n_in file.now) (e_in file.now)) result }
{
    blocks_in(file) == blocks_needed(size_in(file))
}

// Whether the first two words of block b are its number and this kind.
// Kept: that block b is there is a clause of each test, and no invariant of a struct of file and b, for the reason that views::view::block_word gives.
pub fn number_and_kind(file: &[u8], b: usize, kind: Kind) -> bool
    requires { Within file.now b }
    ensures { Tells ((number_in file.now b ≡ b) × (kind_in file.now b ≡ number_of kind)) result }
{
    block_numbered(file, b) && block_word(file, b, 1) == kind as u32
}

// The same for the kind that block b has in a file of n groups.
pub fn kind_agrees(file: &[u8], n: usize, b: usize) -> bool
    requires { Within file.now b }
    ensures { Tells ((number_in file.now b ≡ b) × (kind_in file.now b ≡ kind_of n b)) result }
{
    number_and_kind(file, b, kind_of(n, b))
}

// Whether the unused words of block b are 0. Which these are, the kind says that its place asks for.
pub fn unused_are_zero(file: &[u8], size: Size, b: usize) -> bool
    requires { Within file.now b × Countable size.n size.e b }
    ensures { Tells (UnusedAreZero file.now size.n size.e b) result }
{
    let kind = kind_of(size.n, b);
    (used_words(kind, size, b)..126).all(|w| block_word(file, b, w) == 0)
}
