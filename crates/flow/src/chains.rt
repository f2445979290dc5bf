// Chains: from a group one comes at once to the links that start in it, or that end in it, with no pass over all links. They are built once
// and serve every wave. Those of both ends stand in one list: the heads, and then the nexts.
// Kept: the four arrays of heads and nexts in one list, and e for "no link": fixed memory, one array on the stack, and no Option in the inner loop.
ghost use Rattle.flow.specs.Chains.{Chainable, Chained};

use crate::ends::end_in;
use survey::limits::{GROUPS, LINKS};

// From the last link down, so that each chain ascends: what was first before is next after this one. It begins with empty chains, which is e.
pub fn chain(ends: &[u8], n: usize, e: usize, end: usize, chains: &mut [u16])
    requires { Chainable ends.now n e end chains.old }
    ensures { Chained ends.now n e end chains.old chains.new }
{
    for k in (0..e).rev() {
        let head = GROUPS * end + end_in(ends, k, end);
        chains[2 * GROUPS + LINKS * end + k] = chains[head];
        chains[head] = k as u16;
    }
}
