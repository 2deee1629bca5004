// A set of numbers from 0 to 63 as a 64-bit number: its size, the sets made of it, and the walk from each member to the
// next.
#![tactic(auto)]

ghost use Rattle.std.specs.Prelude.{◌≡◌, ◌<◌};
ghost use Rattle.sets.specs.Walk.{members, StepGives};
ghost use Rattle.std.specs.Iterator.{item_count};
ghost use Rattle.sets.specs.Set.{member, size, within, next, without, including, beyond};

// How many members the set has: the count of ones.
pub fn count(set: u64) -> u64
    ensures { result ≡ size set }
{
    u64::from(set.count_ones())
}

// Whether every member is below n.
pub fn within(set: u64, n: u64) -> bool
    ensures { result ≡ within n set }
{
    if 64 <= n {
        return true;
    }
    set >> n == 0
}

// A set is walked by `for i in Members(set)`, from its least member to the next. The two functions here are a step of
// that iterator: `first` is the member that it gives, `rest` what is left of the walk behind it.

// The least member, or 64 where there is none: the trailing zeros.
pub fn first(set: u64) -> u64
    ensures { result ≡ next set 0 }
{
    u64::from(set.trailing_zeros())
}

// The set without its least member: one less turns that bit and the zeros below it, and nothing above.
pub fn rest(set: u64) -> u64
    ensures { result ≡ beyond set (next set 0) }
{
    if set == 0 {
        return 0;
    }
    set & (set - 1)
}

// Whether i is a member.
pub fn has(set: u64, i: u64) -> bool
    requires { i < 64 }
    ensures { result ≡ member set i }
{
    (set >> i) % 2 == 1
}

// The members that are not in the other set.
pub fn without(set: u64, out: u64) -> u64
    ensures { result ≡ without set out }
{
    set ^ (set & out)
}

// The set with i.
pub fn including(set: u64, i: u64) -> u64
    requires { i < 64 }
    ensures { result ≡ including set i }
{
    set | (1 << i)
}

// The members of a set, from the least to the next: what is left of the walk.
#[derive(Clone, Copy, Debug)]
pub struct Members(pub u64);

impl Iterator for Members {
    type Item = u64;

    ghost next_gives = { λ s r t. StepGives s.0 r t.0 };

    ghost remaining = { item_count (λ s. members s.0) };

    fn next(&mut self) -> Option<u64> {
        let Members(set) = *self;
        if set == 0 {
            return None;
        }
        *self = Members(rest(set));
        Some(first(set))
    }
}
