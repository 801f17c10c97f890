// The test of a guard (RULES 5.6), and the lowest signal of a set, by which it says what was lacking.
ghost use Rattle.std.specs.Prelude.{◌≡◌, ℕ, ◌+◌, ◌≤◌, ◌<◌};
ghost use Rattle.signals.specs.Guard.{lowest, guard};
ghost use Rattle.signals.specs.Look.{lack};
ghost use Rattle.signals.specs.Halving.{Leads};

// What testing a guard shows: it is met; or the lowest needed signal that is absent; or, where none is, the lowest
// barred one that is present.
#[derive(Clone, Copy)]
pub enum Tested {
    Met,
    Absent(u8),
    Present(u8),
}

// A set from one signal on; those passed over are not in it.
#[derive(Clone, Copy)]
struct Rest {
    left: u64,
    passed: u8,
}

// Passes over the next k signals, if none of them is in the set. It halves what the lowest signal can still be.
fn halve(r: Rest, k: u8) -> Rest
    requires { r.passed + (k + k) ≤ 64 }
    ensures { (result.passed + k ≤ 64) × ((s : ℕ) → Leads s (k + k) r → Leads s k result) }
{
    let left = r.left;
    if left % (1 << k) < 1 {
        return Rest {
            left: left >> k,
            passed: r.passed + k,
        };
    }
    r
}

// The lowest signal of a set; of the empty set, 64.
pub fn lowest(s: u64) -> u8
    ensures { result ≡ lowest s }
{
    if s == 0 {
        return 64;
    }
    let all = Rest { left: s, passed: 0 };
    let of_32 = halve(all, 32);
    let of_16 = halve(of_32, 16);
    let of_8 = halve(of_16, 8);
    let of_4 = halve(of_8, 4);
    let of_2 = halve(of_4, 2);
    halve(of_2, 1).passed
}

// What is lacking, as a set: nothing; or what is missing of the needed signals; or, where nothing is, what is there of
// the barred ones.
#[derive(Clone, Copy)]
pub enum Lack {
    Nothing,
    Missing(u64),
    There(u64),
}

// Looks needed signals up in `high`, and barred ones in `low`. A search has only bounds on what is offered, and passes
// what may be and what surely is; where the offered set is known, it is both. It takes the case of nothing, and pays
// for no more: no signal is looked for here.
pub fn look(needed: u64, barred: u64, high: u64, low: u64) -> Lack
    ensures { result ≡ lack needed barred high low }
{
    let missing = crate::less(needed, high);
    let there = barred & low;
    if missing > 0 {
        return Lack::Missing(missing);
    }
    if there > 0 {
        return Lack::There(there);
    }
    Lack::Nothing
}

// Tests a guard, and names the signal that is to blame.
pub fn test(needed: u64, barred: u64, high: u64, low: u64) -> Tested
    ensures { result ≡ guard needed barred high low }
{
    let l = look(needed, barred, high, low);
    match l {
        Lack::Nothing => Tested::Met,
        Lack::Missing(s) => Tested::Absent(lowest(s)),
        Lack::There(s) => Tested::Present(lowest(s)),
    }
}
