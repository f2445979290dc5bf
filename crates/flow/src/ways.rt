// Ways: who can pay into whom, as rows of bits. Row p has the groups that can pay into p, so that the growing looks 64 of them up at once.
ghost use Rattle.flow.specs.Ways.{Notable, Noted, Findable, WayFound, Blank, WaysFound};

use crate::ends::end_in;
use bits::{cut, put};

// Group h stands in row g where there is an amount, and doesn't where there is none.
pub fn note(h: usize, g: usize, amount: u64, rows: &mut [u64])
    requires { Notable h g rows.old }
    ensures { Noted h g amount rows.old rows.new }
{
    if amount == 0 {
        cut(rows, g, h);
        return;
    }
    put(rows, g, h);
}

// Of a link from p to q: q can pay into p, and p can give back what q paid.
fn find_way(p: usize, q: usize, amount: u64, ways: &mut [u64])
    requires { Findable p q ways.old }
    ensures { WayFound p q amount ways.old ways.new }
{
    put(ways, p, q);
    if amount == 0 {
        return;
    }
    put(ways, q, p);
}

// Link after link. (The code asks nothing of n; what is promised of the rows does.)
pub fn find_ways(n: usize, e: usize, ends: &[u8], amounts: &[u64], ways: &mut [u64])
    requires { Blank n e ends.now amounts.now ways.old }
    ensures { WaysFound n e ends.now amounts.now ways.old ways.new }
{
    for k in 0..e {
        let p = end_in(ends, k, 0);
        let q = end_in(ends, k, 1);
        find_way(p, q, amounts[k], ways);
    }
}
