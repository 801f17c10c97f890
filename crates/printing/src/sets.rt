// Sets of signals.
ghost use Rattle.std.specs.Prelude.{◌<◌};
ghost use Rattle.signals.specs.Mask.{bit};
ghost use Rattle.notation.specs.Grammar.{comma, letS, name₁, of_set};
ghost use Rattle.spelling.specs.Typed.{if_so, members as members_of, signals_of};
ghost use Rattle.printing.specs.Prints.{Prints};
ghost use Rattle.printing.specs.Separated.{in_turn, PrintsApart, Adds};

use crate::signs;

// Signals are s0 to s63.
pub const SIGNALS: u32 = 64;

// The sign before a member of a list that begins at `first`, unless it is the first.
pub fn apart(out: &mut [u8], first: usize, at: usize, b: u8) -> usize
    ensures { PrintsApart b first out.old at out.new result }
{
    if at == first {
        return at;
    }
    signs::sign(out, at, b)
}

// A signal of a set that begins at `first`, if it is in x.
fn member(x: u64, s: u32, out: &mut [u8], first: usize, at: usize) -> usize
    requires { s < 64 }
    ensures { Adds comma (name₁ letS) (if_so (bit x s) s) first out.old at out.new result }
{
    if !signals::has(x, s) {
        return at;
    }
    let next = apart(out, first, at, b',');
    signs::name(out, next, b's', s as u8)
}

// The signals of a set, rising.
fn members(x: u64, out: &mut [u8], first: usize) -> usize
    ensures { Prints out.old first (in_turn comma (name₁ letS) (members_of x)) out.new result }
{
    let mut at = first;
    for s in 0..SIGNALS {
        at = member(x, s, out, first, at);
    }
    at
}

// A set in its braces.
pub fn set(x: u64, out: &mut [u8], at: usize) -> usize
    ensures { Prints out.old at (of_set (signals_of x)) out.new result }
{
    let first = signs::sign(out, at, b'{');
    let end = members(x, out, first);
    signs::sign(out, end, b'}')
}
