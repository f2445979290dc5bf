// The working copy: a wave looks at each link many times, and in the copy a look is one byte and one number. It is made once for a call, and what
// the waves leave is written back at its end.
// Kept: three functions, which store two bytes for two words, a number for a long word, and a long word for a number: nothing but the loop is
// common to them, and what reads and what writes would be two closures for each.
ghost use Rattle.flow.specs.Copies.{Copyable, Copied, Takable, Taken, Puttable, Put};

use entries::{Entries, amount_at, put_amount};
use survey::stands::Stand;

pub fn copy_ends(e: usize, links: &[u8], ends: &mut [u8])
    requires { Copyable e links.now ends.old }
    ensures { Copied e links.now ends.old ends.new }
{
    let list = Entries {
        bytes: links,
        stand: Stand::Lent,
    };
    for k in 0..e {
        let link = list.link(k);
        ends[2 * k] = link.from as u8;
        ends[2 * k + 1] = link.to as u8;
    }
}

pub fn take_amounts(e: usize, amounts: &[u8], x: &mut [u64])
    requires { Takable e amounts.now x.old }
    ensures { Taken e amounts.now x.old x.new }
{
    for k in 0..e {
        x[k] = amount_at(amounts, k);
    }
}

pub fn put_amounts(e: usize, x: &[u64], amounts: &mut [u8])
    requires { Puttable e x.now amounts.old }
    ensures { Put e x.now amounts.old amounts.new }
{
    for k in 0..e {
        put_amount(amounts, k, x[k]);
    }
}
