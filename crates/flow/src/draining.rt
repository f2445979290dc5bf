// The set that drains.
ghost use Rattle.flow.specs.Drains.{Drainable, Drained};

use crate::copies::{copy_ends, take_amounts};
use crate::drains::Queue;
use crate::sizes::{ENDS, ROWS};
use crate::ways::find_ways;
use survey::limits::{GROUPS, LINKS};

// Marks the least set that holds every group with a lack and in which a group joins that could pay one in it: along each link from a group in
// it, and back along each link to one that has an amount.
pub fn drained(n: usize, e: usize, links: &[u8], amounts: &[u8], lack: &[u64], t: &mut [u8])
    requires { Drainable n e links.now amounts.now lack.now t.old }
    ensures { Drained n e links.now amounts.now lack.now t.old t.new }
{
    let mut ends = [0u8; ENDS];
    copy_ends(e, links, &mut ends);
    let mut x = [0u64; LINKS];
    take_amounts(e, amounts, &mut x);
    let mut ways = [0u64; ROWS];
    find_ways(n, e, &ends, &x, &mut ways);
    let mut order = [0u16; GROUPS];
    let mut queue = Queue {
        n,
        t,
        order: &mut order,
        count: 0,
    };
    queue.begin(lack);
    queue.grow(&ways);
}
