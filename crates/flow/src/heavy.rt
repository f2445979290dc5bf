// Weights in, the heaviest closed set out, with the amounts that prove it.
ghost use Rattle.std.specs.Prelude.{◌-◌, ◌≤◌, ◌≡◌, length};
ghost use Rattle.flow.specs.Heavy.{Halved, flipped, Flipped, Weighable, Heavy};

use crate::copies::{copy_ends, put_amounts};
use crate::sizes::ENDS;
use crate::waves::settle;
use survey::limits::LINKS;

// Each weight becomes its two halves, in place: with no amounts yet these are the halves of the balances.
fn halve(n: usize, plus: &mut [u64], minus: &mut [u64])
    requires { (n ≤ length plus.old) × (n ≤ length minus.old) }
    ensures { Halved n plus.old minus.old plus.new minus.new }
{
    for g in 0..n {
        let p = plus[g];
        let m = minus[g];
        plus[g] = p.saturating_sub(m);
        minus[g] = m.saturating_sub(p);
    }
}

// From the set that drains to its outside.
fn flip_all(n: usize, marks: &mut [u8])
    requires { n ≤ length marks.old }
    ensures { Flipped n marks.old marks.new }
{
    for mark in marks[..n].iter_mut() {
        *mark = u8::from(*mark == 0);
    }
}

// plus and minus are the two halves of the weights at entry, and of the balances at exit.
// Kept: n, e and links apart, here and in `drained`: a survey as lists (entries::Lists) has groups too, which no wave reads.
pub fn heaviest(
    n: usize,
    e: usize,
    links: &[u8],
    plus: &mut [u64],
    minus: &mut [u64],
    marks: &mut [u8],
    amounts: &mut [u8],
)
    requires { Weighable n e links.now plus.old minus.old marks.old amounts.old }
    ensures { Heavy n e links.now plus.old minus.old marks.old amounts.old plus.new minus.new marks.new amounts.new }
{
    let mut ends = [0u8; ENDS];
    copy_ends(e, links, &mut ends);
    halve(n, plus, minus);
    let mut x = [0u64; LINKS];
    settle(n, e, &ends, &mut x, plus, minus, marks);
    flip_all(n, marks);
    put_amounts(e, &x, amounts);
}
