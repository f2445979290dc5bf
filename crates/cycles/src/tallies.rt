// The working list of the cycle test: a small tally of each group.
ghost use Rattle.std.specs.Prelude.{◌+◌, ◌<◌};
ghost use Rattle.survey.specs.Limits.{group_limit};
ghost use Rattle.cycles.specs.Tallies.{tally_limit, count_of, first_of, Noted, Settled, Lowered, Kept};

use survey::limits::GROUPS;

// How many links into the group are left, or, where none is, the group that waits under it on the stack; and the first link that starts at the group.
// Kept: the stack's links are numbers, g + 1 for group g and 0 for none, and no Option: they stand where counts stood, in fixed memory of 4 bytes a group.
// With an Option for its top alone each push and each pop would take one apart and put one together, which is no plainer.
#[derive(Clone, Copy)]
pub struct Tally {
    pub count: u16,
    pub first: u16,
}

// Link k: one more into `to`, and the first that starts at `from`, as far as is known.
pub fn note(w: &mut [Tally; GROUPS], from: usize, to: usize, k: usize)
    requires { (from < group_limit) × (to < group_limit) × (k < tally_limit) × (count_of w.old to + 1 < tally_limit) }
    ensures { Noted w.old w.new from to k }
{
    w[from].first = k as u16;
    w[to].count += 1;
}

// A group that nothing comes to any more goes on the stack. The top of the stack then.
pub fn settle(w: &mut [Tally; GROUPS], g: usize, top: usize) -> usize
    requires { (g < group_limit) × (top < tally_limit) }
    ensures { Settled (count_of w.old) (count_of w.new) g top result × Kept (first_of w.old) (first_of w.new) }
{
    if w[g].count == 0 {
        w[g].count = top as u16;
        return g + 1;
    }
    top
}

// A link to g is taken off its count.
pub fn lower(w: &mut [Tally; GROUPS], g: usize, top: usize) -> usize
    requires { (g < group_limit) × (top < tally_limit) × (0 < count_of w.old g) }
    ensures { Lowered (count_of w.old) (count_of w.new) g top result × Kept (first_of w.old) (first_of w.new) }
{
    w[g].count -= 1;
    settle(w, g, top)
}
