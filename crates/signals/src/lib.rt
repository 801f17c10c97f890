// Sets of 64 signals as masks, and the test of a guard.
#![tactic(auto)]

ghost use Rattle.std.specs.Prelude.{◌≡◌, ◌<◌};
ghost use Rattle.signals.specs.Mask.{◌∪◌, ◌∖◌, bit, single, within, apart};
ghost use Rattle.signals.specs.Lowest.{IsLowestFree};

pub mod guard;

// The set of all signals.
pub const ALL: u64 = 18446744073709551615;

// a without b
pub fn less(a: u64, b: u64) -> u64
    ensures { result ≡ a ∖ b }
{
    a ^ (a & b)
}

// a is in b
pub fn within(a: u64, b: u64) -> bool
    ensures { result ≡ within a b }
{
    a ^ (a & b) == 0
}

pub fn apart(a: u64, b: u64) -> bool
    ensures { result ≡ apart a b }
{
    a & b == 0
}

pub fn has(s: u64, n: u32) -> bool
    requires { n < 64 }
    ensures { result ≡ bit s n }
{
    (s >> n) % 2 == 1
}

pub fn single(n: u32) -> u64
    requires { n < 64 }
    ensures { result ≡ single n }
{
    1 << n
}

pub fn with(s: u64, n: u32) -> u64
    requires { n < 64 }
    ensures { result ≡ s ∪ single n }
{
    s | single(n)
}

// The lowest signal that is not in a set; none, if all are.
pub fn lowest_free(s: u64) -> Option<u32>
    ensures { IsLowestFree s result }
{
    for n in 0..64 {
        if !has(s, n) {
            return Some(n);
        }
    }
    None
}
