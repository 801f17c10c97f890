// Guards.
ghost use Rattle.std.specs.Prelude.{List, ℕ, ◌<◌};
ghost use Rattle.signals.specs.Mask.{bit};
ghost use Rattle.notation.specs.Grammar.{amp, letS, name₁, of_literal, of_guard};
ghost use Rattle.spelling.specs.Typed.{if_so, literals, listed};
ghost use Rattle.printing.specs.Prints.{Prints};
ghost use Rattle.printing.specs.Separated.{Adds};
ghost use Rattle.printing.specs.Forms.{literal_of};

use crate::{sets, signs};

// The minus before a signal that is barred.
fn minus(barred: bool, out: &mut [u8], at: usize) -> usize
    ensures { (s : ℕ) (n : List ℕ) (k : ℕ) → Prints out.new result (name₁ letS s) n k
        → Prints out.old at (of_literal (literal_of barred s)) n k }
{
    if barred {
        return signs::sign(out, at, b'-');
    }
    at
}

// A signal of a guard that begins at `first`, if it is in x: barred or needed.
fn literal(x: u64, barred: bool, s: u32, out: &mut [u8], first: usize, at: usize) -> usize
    requires { s < 64 }
    ensures { Adds amp of_literal (if_so (bit x s) (literal_of barred s)) first out.old at
        out.new result }
{
    if !signals::has(x, s) {
        return at;
    }
    let begin = sets::apart(out, first, at, b'&');
    let next = minus(barred, out, begin);
    signs::name(out, next, b's', s as u8)
}

// The guard that needs x and bars y, by signal.
pub fn guard(x: u64, y: u64, out: &mut [u8], first: usize) -> usize
    ensures { Prints out.old first (of_guard (listed (literals x y))) out.new result }
{
    let mut at = first;
    for s in 0..sets::SIGNALS {
        let next = literal(x, false, s, out, first, at);
        at = literal(y, true, s, out, first, next);
    }
    at
}
