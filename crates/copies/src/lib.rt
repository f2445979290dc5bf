// The pairs of a file, which stand in its blocks, copied into a lent list, where they stand one after the other. Each is read through the view of its block.
#![tactic(auto)]

ghost use Rattle.std.specs.Prelude.{◌+◌, ◌*◌, ◌≤◌, ◌≡◌, length};
ghost use Rattle.survey.specs.SurveyFile.{in_blocks};
ghost use Rattle.survey.specs.Promises.{Filled};
ghost use Rattle.words.specs.Words.{with_long_word};
ghost use Rattle.copies.specs.Copies.{both_words, Fillable};

use entries::{Entries, Pair};
use survey::stands::Stand;
use words::put_long_word;

// The two words of a pair are written as one long word.
fn put_pair(list: &mut [u8], k: usize, pair: Pair)
    requires { 8 * k + 8 ≤ length list.old }
    ensures { list.new ≡ with_long_word list.old (8 * k) (both_words pair) }
{
    put_long_word(
        list,
        8 * k,
        pair.first as u64 + 4_294_967_296 * (pair.second as u64),
    );
}

// The first count pairs of the blocks from block start on.
// Kept: file and start are not an `Entries`. That was tried: of a slice in a struct the proof is not told that its bytes are below 256, and bytes are what is copied.
pub fn fill(list: &mut [u8], count: usize, file: &[u8], start: usize)
    requires { Fillable list.old count file.now start }
    ensures { Filled list.old list.new count file.now (in_blocks start) }
{
    let pairs = Entries {
        bytes: file,
        stand: Stand::Blocks(start),
    };
    for k in 0..count {
        put_pair(list, k, pairs.pair(k));
    }
}
