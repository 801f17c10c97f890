// Sequential charts.
ghost use Rattle.std.specs.Prelude.{◌≡◌, map, ◌<◌};
ghost use Rattle.meaning.specs.File.{file_at};
ghost use Rattle.notation.specs.Grammar.{comma, of_transition, of_transitions, of_heading, of_extra, of_sequential};
ghost use Rattle.spelling.specs.Typed.{listed, transition_of, or_left_out, sequential_of};
ghost use Rattle.checks.specs.Known.{Sized, Summed};
ghost use Rattle.printing.specs.Prints.{Prints};
ghost use Rattle.printing.specs.Separated.{in_turn};
ghost use Rattle.printing.specs.Forms.{heading_of};

use crate::{guards, sets, signs, states};
use layout::body::Shape;
use layout::record::{Head, Transition};

// A transition: its ends, its guard and its action.
fn transition(t: Transition, out: &mut [u8], at: usize) -> usize
    ensures { Prints out.old at (of_transition (transition_of t)) out.new result }
{
    let from = signs::sign(out, at, b'(');
    let behind_from = signs::name(out, from, b'q', t.from);
    let to = signs::sign(out, behind_from, b',');
    let behind_to = signs::name(out, to, b'q', t.to);
    let guard = signs::sign(out, behind_to, b',');
    let slash = guards::guard(t.needed, t.barred, out, guard);
    let action = signs::sign(out, slash, b'/');
    let end = sets::set(t.action, out, action);
    signs::sign(out, end, b')')
}

// The transitions of chart c, in the file's order.
fn in_order(n: Shape, body: &[u8], c: usize, out: &mut [u8], first: usize) -> usize
    requires { Sized n body.now × Summed n body.now × (c < n.charts) }
    ensures { Prints out.old first
        (in_turn comma of_transition (map transition_of ((file_at n body.now).chart c).transitions))
        out.new result }
{
    let head = layout::body::head_at(n, body, c);
    let count = head.transitions as usize;
    let start = layout::body::start_of(n, body, c);
    let mut at = first;
    for k in 0..count {
        let t = layout::body::transition_at(n, body, start + k);
        let next = sets::apart(out, first, at, b',');
        at = transition(t, out, next);
    }
    at
}

// The same in braces.
fn transitions(n: Shape, body: &[u8], c: usize, out: &mut [u8], at: usize) -> usize
    requires { Sized n body.now × Summed n body.now × (c < n.charts) }
    ensures { Prints out.old at
        (of_transitions (listed (map transition_of ((file_at n body.now).chart c).transitions)))
        out.new result }
{
    let first = signs::sign(out, at, b'{');
    let end = in_order(n, body, c, out, first);
    signs::sign(out, end, b'}')
}

// The fields of chart c before its transitions: its name, its states, the initial one, its feedback set.
fn heading(c: u8, h: Head, out: &mut [u8], at: usize) -> usize
    ensures { Prints out.old at (of_heading (heading_of c h)) out.new result }
{
    let name = signs::sign(out, at, b'(');
    let behind_name = signs::name(out, name, b'c', c);
    let brace = signs::sign(out, behind_name, b',');
    let first = signs::sign(out, brace, b'{');
    let behind_states = states::states(h.states, h.initial, out, first);
    let behind_brace = signs::sign(out, behind_states, b'}');
    let initial = signs::sign(out, behind_brace, b',');
    let behind_initial = signs::name(out, initial, b'q', h.initial);
    let feedback = signs::sign(out, behind_initial, b',');
    sets::set(h.feedback, out, feedback)
}

// An extra set with the comma before it; an empty one is left out.
fn extra(x: u64, out: &mut [u8], at: usize) -> usize
    ensures { Prints out.old at (of_extra (or_left_out x)) out.new result }
{
    if x == 0 {
        return at;
    }
    let next = signs::sign(out, at, b',');
    sets::set(x, out, next)
}

// Chart c.
pub fn sequential(n: Shape, body: &[u8], c: usize, out: &mut [u8], at: usize) -> usize
    requires { Sized n body.now × Summed n body.now × (c < n.charts) }
    ensures { Prints out.old at
        (of_sequential (sequential_of c ((file_at n body.now).chart c))) out.new result }
{
    let head = layout::body::head_at(n, body, c);
    let behind_heading = heading(c as u8, head, out, at);
    let list = signs::sign(out, behind_heading, b',');
    let behind_list = transitions(n, body, c, out, list);
    let end = extra(head.extra, out, behind_list);
    signs::sign(out, end, b')')
}
