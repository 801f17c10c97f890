// The states of a chart.
ghost use Rattle.std.specs.Prelude.{cond, [], ◌∷◌};
ghost use Rattle.meaning.specs.Meaning.{same};
ghost use Rattle.notation.specs.Grammar.{comma, letQ, name₁, of_names};
ghost use Rattle.printing.specs.Prints.{Prints};
ghost use Rattle.printing.specs.Separated.{Adds};
ghost use Rattle.printing.specs.Forms.{initial_first};

use crate::{sets, signs};

// A state of a list that begins at `first`, unless it is the initial one.
fn other(q: u8, initial: u8, out: &mut [u8], first: usize, at: usize) -> usize
    ensures { Adds comma (name₁ letQ) (cond (same q initial) [] (q ∷ [])) first out.old at
        out.new result }
{
    if q == initial {
        return at;
    }
    let next = sets::apart(out, first, at, b',');
    signs::name(out, next, b'q', q)
}

// The states, the initial one first and the others rising.
pub fn states(count: u8, initial: u8, out: &mut [u8], first: usize) -> usize
    ensures { Prints out.old first
        (of_names letQ (initial_first count initial)) out.new result }
{
    let mut at = signs::name(out, first, b'q', initial);
    for q in 0..count {
        at = other(q, initial, out, first, at);
    }
    at
}
