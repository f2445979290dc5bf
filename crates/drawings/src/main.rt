// The cases of Specification 15.3, which are run and not proved: one printed line for each. Some are files of data/, some lists.
#![tactic(auto)]

ghost use Rattle.std.specs.Prelude.{◌≤◌, length};

use chooser::choose;
use entries::Lists;
use input::read_full;
use printing::{FILE_ROOM, TEXT_ROOM, print_pick};
use refusals::place_number;
use std::rt::Files;
use std::{fs, io};
use survey::limits::{GROUPS, LINKS};
use views::sums::check_agrees;
use views::view::block_check;

// ---- cases that are files, opened by name and read as the pick program reads its input

// The bytes of a file, as many as there is room for. A file that is not there has none.
fn load<'a>(rt: &HostRuntime, path: &str, room: &'a mut [u8]) -> &'a [u8]
    ensures { length result.now ≤ length room.old }
{
    let n = match fs::open(rt, path) {
        Ok(mut opened) => read_full(&mut opened, room),
        Err(_) => 0,
    };
    &room[..n]
}

// The name of the case, and what the program prints of its file.
fn file_case(rt: &HostRuntime, name: &str, path: &str) -> io::Result<()> {
    let mut room = [0u8; FILE_ROOM];
    let file = load(rt, path, &mut room);
    let mut text = [0u8; TEXT_ROOM];
    let k = print_pick(file, &mut text);
    print!(rt; "{name}")?;
    rt.write_all(&text[..k])
}

// The two check words of block 0, and whether they are its sums.
fn header_words(rt: &HostRuntime, file: &[u8]) -> io::Result<()> {
    if file.len() < 512 {
        return Ok(());
    }
    let first = block_check(file, 0, 0);
    let second = block_check(file, 0, 1);
    print!(rt; "{first} {second}")?;
    if check_agrees(file, 0) {
        print!(rt; " agree")?;
    }
    Ok(())
}

fn check_words(rt: &HostRuntime, name: &str, path: &str) -> io::Result<()> {
    let mut room = [0u8; FILE_ROOM];
    let file = load(rt, path, &mut room);
    print!(rt; "{name}")?;
    header_words(rt, file)?;
    println!(rt; "")
}

// ---- cases that are lists, made here and given to the chooser

// A list that begins with these numbers, as words with their low bytes first. The rest of it is zeros.
fn list_of<const N: usize>(numbers: &[u32]) -> [u8; N] {
    let mut list = [0u8; N];
    for (word, x) in list.chunks_exact_mut(4).zip(numbers) {
        word.copy_from_slice(&x.to_le_bytes());
    }
    list
}

// The name of the case, and the chooser's answer.
fn list_case(rt: &HostRuntime, name: &str, lists: Lists) -> io::Result<()> {
    let mut marks = [0u8; GROUPS];
    let mut amounts = [0u8; 8 * LINKS];
    match choose(lists, &mut marks, &mut amounts) {
        Ok(rounds) => {
            let picked = marks.iter().filter(|mark| **mark == 1).count();
            println!(rt; "{name}chosen {picked} rounds {rounds}")
        }
        Err(r) => {
            let number = r.number;
            let place = place_number(r.place);
            println!(rt; "{name}refused {number} {place}")
        }
    }
}

// ---- the cases

// A header with n out of range, a count above its limit, a survey with nothing dead; and the check words of F2's header.
fn from_files(rt: &HostRuntime) -> io::Result<()> {
    check_words(rt, "header of F2, check words: ", "f2.dat")?;
    file_case(rt, "header with n 129: ", "n_129.dat")?;
    file_case(rt, "header with n 0: ", "n_0.dat")?;
    file_case(rt, "count of 1000001 in group 2: ", "count_1000001.dat")?;
    file_case(rt, "one group 0:5: ", "one_group_0_5.dat")
}

// A survey of 5 with these links, as many as e.
fn of_five<'a>(groups: &'a [u8], e: usize, links: &'a [u8]) -> Lists<'a> {
    Lists {
        n: 5,
        e,
        groups,
        links,
    }
}

// The groups of F2, with a link of which both ends are one group, one to a group that is not there, and one that stands twice.
fn from_lists(rt: &HostRuntime) -> io::Result<()> {
    let groups = list_of::<1_024>(&[2, 2, 4, 3, 1, 12, 6, 3, 10, 3]);
    let to_itself = list_of::<8_192>(&[3, 3]);
    list_case(
        rt,
        "link (3,3) in a survey of 5: ",
        of_five(&groups, 1, &to_itself),
    )?;
    let outside = list_of::<8_192>(&[4, 5]);
    list_case(
        rt,
        "link (4,5) in a survey of 5: ",
        of_five(&groups, 1, &outside),
    )?;
    let twice = list_of::<8_192>(&[1, 2, 1, 2]);
    list_case(rt, "link (1,2) twice: ", of_five(&groups, 2, &twice))
}

// The largest survey without links, all counts at their limit.
fn largest_counts(rt: &HostRuntime) -> io::Result<()> {
    let groups = list_of::<1_024>(&[1_000_000; 2 * GROUPS]);
    let links = [0u8; 8 * LINKS];
    let lists = Lists {
        n: GROUPS,
        e: 0,
        groups: &groups,
        links: &links,
    };
    list_case(rt, "128 groups of 1000000:1000000: ", lists)
}

fn main(rt: HostRuntime) -> io::Result<()> {
    from_files(&rt)?;
    from_lists(&rt)?;
    largest_counts(&rt)
}
