// Counts (Specification 3.1). Dead and live are different sorts of number, never mixed: so each has a type of its own, and what
// compares them, a cross product or a weight, takes one of each.
#![tactic(auto)]

ghost use Rattle.std.specs.Prelude.{ℕ, ◌≡◌, ◌+◌, ◌*◌, ◌^◌, ◌≤◌, ◌<◌};
ghost use Rattle.survey.specs.Limits.{count_limit, sum_limit};
ghost use Rattle.survey.specs.Sets as sets;
ghost use Rattle.survey.specs.Survey as survey;
ghost use Rattle.counts.specs.Counts.{group_of, CountsFit, WeightIs};

// A sort of count: what a group has of it, and how such counts are added up. A sum is of one sort: there is no sum of a dead and a live count.
pub trait Count: Copy {
    // the number that a count is
    ghost number: { Self → ℕ };

    // the number that a group has
    ghost held: { survey.Group → ℕ };

    fn zero() -> Self
        ensures { number result ≡ 0 };

    // What a group brings to a sum.
    fn of(g: Group) -> Self
        ensures { number result ≡ held (group_of g) };

    fn plus(self, other: Self) -> Self
        requires { number self + number other < 2 ^ 64 }
        ensures { number result ≡ number self + number other };

    // Law: no group whose counts are within their limit has more of it than that limit.
    ghost small: { (g : survey.Group) → CountsFit g → held g ≤ count_limit };

    // Law: a group with nothing in it has none of it.
    ghost none: { held (record { dead = 0; live = 0 }) ≡ 0 };

    // Law: a count is its number, so what is said of the number leaves one answer.
    ghost one: { (a b : Self) → number a ≡ number b → a ≡ b };
}

// Kept: two structs that differ in name alone, since docs/FORMS.md names them: what takes one of each can't be given two of one sort.
// Kept: a number with no limit in its type, since `plus` is promised up to 2^64: a limit of sum_limit there would ask more of callers.

// A count of dead objects, or a sum of such.
#[derive(Clone, Copy)]
pub struct Dead(pub u64);

// A count of live objects, or a sum of such; also what opening a group costs.
#[derive(Clone, Copy)]
pub struct Live(pub u64);

#[derive(Clone, Copy)]
pub struct Group {
    pub dead: Dead,
    pub live: Live,
}

// A weight is signed: plus - minus. The two are kept apart, so that nothing is subtracted.
#[derive(Clone, Copy)]
pub struct Weight {
    pub plus: u64,
    pub minus: u64,
}

impl Count for Dead {
    ghost number = { λ d. d.0 };

    ghost held = { λ group. group.dead };

    ghost small = { λ g fit. fit.dead };

    ghost none = { λ i. 0 };

    ghost one = { λ a b same i. record { 0 = same i } };

    fn zero() -> Dead {
        Dead(0)
    }

    fn of(g: Group) -> Dead {
        g.dead
    }

    fn plus(self, other: Dead) -> Dead {
        Dead(self.0 + other.0)
    }
}

impl Count for Live {
    ghost number = { λ l. l.0 };

    ghost held = { sets.cost };

    ghost small = { λ g fit. fit.live };

    ghost none = { λ i. 0 };

    ghost one = { λ a b same i. record { 0 = same i } };

    fn zero() -> Live {
        Live(0)
    }

    // Specification 4.4: what a group costs is its live count.
    fn of(g: Group) -> Live {
        g.live
    }

    fn plus(self, other: Live) -> Live {
        Live(self.0 + other.0)
    }
}

fn cross(l: Live, d: Dead) -> u64
    requires { (l.0 ≤ sum_limit) × (d.0 ≤ sum_limit) }
    ensures { result ≡ l.0 * d.0 }
{
    l.0 * d.0
}

// Specification 6.1: the weight of a group, where d and l are the sums of the current set.
pub fn weight_of(g: Group, d: Dead, l: Live) -> Weight
    requires { CountsFit (group_of g) × (d.0 ≤ sum_limit) × (l.0 ≤ sum_limit) }
    ensures { WeightIs result (group_of g) d.0 l.0 }
{
    let plus = cross(l, Dead::of(g));
    let minus = cross(Live::of(g), d);
    Weight { plus, minus }
}
