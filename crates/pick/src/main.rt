// The pick of one survey from standard input, or why it is refused (Specification 14). Where a read fails, the input ends. What is printed is
// settled by printing::print_pick.
#![tactic(auto)]

use input::read_full;
use printing::{FILE_ROOM, TEXT_ROOM, print_pick};
use std::io;

fn main(rt: HostRuntime) -> io::Result<()> {
    let mut file = [0u8; FILE_ROOM];
    let n = read_full(&mut rt.reader(), &mut file);
    let mut text = [0u8; TEXT_ROOM];
    let k = print_pick(&file[..n], &mut text);
    rt.write_all(&text[..k])
}
