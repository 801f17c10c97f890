// 6 and 7: charts and their transitions.
ghost use Rattle.std.specs.Prelude.{◌≡◌, false, ◌||◌, ◌≤◌, ltb};
ghost use Rattle.meaning.specs.Numbers.{most_states, most_in_chart};
ghost use Rattle.meaning.specs.Meaning.{same};
ghost use Rattle.meaning.specs.Check.{not_below, charts?, transitions?};
ghost use Rattle.checks.specs.Known.{Sized};
ghost use Rattle.checks.specs.Walk.{next?, counted};

use crate::limits;
use layout::body::Shape;
use layout::record::{Head, Transition};

// 6, of one chart: its states, its initial state, or how many transitions it has.
fn bad_chart(h: Head) -> bool
    ensures { result ≡ ((same h.states 0 || ltb most_states h.states) || not_below h.initial h.states
        || ltb most_in_chart h.transitions) }
{
    ((h.states == 0) | (h.states > limits::MOST_STATES))
        | !(h.initial < h.states)
        | (h.transitions > limits::MOST_IN_CHART)
}

// 6: a chart is bad, or their transitions do not add up to the trailer's number.
pub fn bad_charts(n: Shape, body: &[u8]) -> bool
    requires { Sized n body.now }
    ensures { result ≡ charts? n body.now }
{
    let mut sum: usize = 0;
    for c in 0..n.charts {
        let h = layout::body::head_at(n, body, c);
        if bad_chart(h) {
            return true;
        }
        sum += h.transitions as usize;
    }
    sum != n.transitions
}

// 7, of one transition: an end is no state of its chart, or it is the ninth from its state; `left` has how many left
// each state before it, and then counts it too.
fn bad_transition(t: Transition, states: u8, left: &mut [u8; limits::MOST_STATES as usize]) -> bool
    requires { states ≤ most_states }
    ensures { (result ≡ next? t states left.old)
        × (result ≡ false → left.new ≡ counted t left.old) }
{
    if t.from >= states {
        return true;
    }
    if t.to >= states {
        return true;
    }
    let from = t.from as usize;
    if left[from] >= limits::MOST_FROM_STATE {
        return true;
    }
    left[from] += 1;
    false
}

// 7: the walk over all charts ends at the first bad transition.
pub fn bad_transitions(n: Shape, body: &[u8]) -> bool
    requires { Sized n body.now × (charts? n body.now ≡ false) }
    ensures { result ≡ transitions? n body.now }
{
    let charts = n.charts;
    let mut found = false;
    let mut start: usize = 0;
    'scan: for c in 0..charts {
        let h = layout::body::head_at(n, body, c);
        let count = h.transitions;
        let states = h.states;
        let mut left = [0u8; limits::MOST_STATES as usize];
        for t in 0..usize::from(count) {
            if bad_transition(
                layout::body::transition_at(n, body, start + t),
                states,
                &mut left,
            ) {
                found = true;
                break 'scan;
            }
        }
        start += usize::from(count);
    }
    found
}
