// Bytes, signs and names, written at a place of a buffer.
ghost use Rattle.std.specs.Prelude.{[], ◌∷◌, ◌<◌};
ghost use Rattle.line.specs.Line.{decimal};
ghost use Rattle.notation.specs.Grammar.{wordDec, wordBy, sign₁};
ghost use Rattle.printing.specs.Prints.{Writes, Prints, PrintsSign, PrintsName};

use layout::limits;

// No text of a file is longer.
pub const MOST_TEXT: usize = 814 * limits::MOST_TRANSITIONS as usize
    + 564 * limits::MOST_CHARTS as usize
    + 14 * limits::MOST_SLAVES as usize
    + 496 * limits::MOST_NODES as usize;

// One byte; past the buffer's end it is counted and not written.
pub fn byte(out: &mut [u8], at: usize, b: u8) -> usize
    ensures { Writes out.old at (b ∷ []) out.new result }
{
    if MOST_TEXT <= at {
        return at;
    }
    if at < out.len() {
        out[at] = b;
    }
    at + 1
}

// A sign of one byte.
pub fn sign(out: &mut [u8], at: usize, b: u8) -> usize
    ensures { PrintsSign b out.old at out.new result }
{
    byte(out, at, b)
}

pub fn dec(out: &mut [u8], at: usize) -> usize
    ensures { Prints out.old at (sign₁ wordDec) out.new result }
{
    let e = byte(out, at, b'D');
    let c = byte(out, e, b'e');
    byte(out, c, b'c')
}

pub fn by(out: &mut [u8], at: usize) -> usize
    ensures { Prints out.old at (sign₁ wordBy) out.new result }
{
    let y = byte(out, at, b'b');
    byte(out, y, b'y')
}

// A number of one digit.
fn digit(out: &mut [u8], at: usize, d: u8) -> usize
    requires { d < 10 }
    ensures { Writes out.old at (decimal d) out.new result }
{
    byte(out, at, b'0' + d)
}

// A number of one digit or two.
fn digits(out: &mut [u8], at: usize, n: u8) -> usize
    requires { n < 100 }
    ensures { Writes out.old at (decimal n) out.new result }
{
    if n < 10 {
        return digit(out, at, n);
    }
    let next = digit(out, at, n / 10);
    digit(out, next, n % 10)
}

// A number in decimal.
fn number(out: &mut [u8], at: usize, n: u8) -> usize
    ensures { Writes out.old at (decimal n) out.new result }
{
    if n < 100 {
        return digits(out, at, n);
    }
    let last = digits(out, at, n / 10);
    digit(out, last, n % 10)
}

// A name: its letter and its number.
pub fn name(out: &mut [u8], at: usize, letter: u8, n: u8) -> usize
    ensures { PrintsName letter n out.old at out.new result }
{
    let next = byte(out, at, letter);
    number(out, next, n)
}
