// Bytes from outside, a survey file's among them, read into a list that is lent.
#![tactic(auto)]

ghost use Rattle.std.specs.Prelude.{◌≤◌, length, take};
ghost use Rattle.std.specs.Io.KnownBytes.{Consumes};

use std::io::Read;

// Reads until the list is full, the input ends or a read fails. How many bytes came: they stand at the front of the list, in the order in which the input
// had them, and none was passed over.
// Kept: a count beside the list: clauses `room` and `bytes` (docs/PROMISES.md) are of it; and a loop over `read`: `read_exact` says nothing of an input that
// ends, and `read_to_end` takes a `Vec`, for which there is no heap.
pub fn read_full<R: Read>(input: &mut R, file: &mut [u8]) -> usize
    ensures room { result ≤ length file.new }
    ensures bytes { Consumes (R.remaining input.old) (R.remaining input.new) (take result file.new) }
{
    let mut done = 0;
    while done < file.len() {
        match input.read(&mut file[done..]) {
            Ok(0) => return done,
            Ok(n) => done += n,
            Err(_) => return done,
        }
    }
    done
}
