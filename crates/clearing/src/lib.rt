// Clearing a body that passed its check: which transitions are dead, how many are left, the bytes of the cleared file.
#![tactic(auto)]

ghost use Rattle.std.specs.Prelude.{◌≡◌, [], ◌∷◌, ◌+◌, ◌≤◌, ◌<◌, length};
ghost use Rattle.layout.specs.Body.{Holds, from, transition_at};
ghost use Rattle.layout.specs.Put.{Room, Put};
ghost use Rattle.meaning.specs.Calls.{laid_over};
ghost use Rattle.meaning.specs.File.{file_at};
ghost use Rattle.meaning.specs.Rewriting.{in_turn, transitions_in, shape_in, encode};
ghost use Rattle.checks.specs.Known.{Sized, Summed};
ghost use Rattle.clearing.specs.Clearing.{clear, dead as isDead};
ghost use Rattle.clearing.specs.Left.{left_of, head_with, kept_bytes, heads_bytes, lists_bytes, slaves_bytes};
ghost use Rattle.clearing.specs.Left.{nodes_bytes};

use checks::limits;
use layout::body::Shape;
use layout::record::{Head, Transition};

// What is left of a list of transitions: how many; the signals that its guards named, and those that they still name.
#[derive(Clone, Copy)]
pub struct Left {
    pub count: usize,
    pub was: u64,
    pub still: u64,
}

// The transition needs and bars one signal, or bars one that it outputs into `fed`, its chart's feedback set.
fn is_dead(t: Transition, fed: u64) -> bool
    ensures { result ≡ isDead fed t }
{
    (t.needed & t.barred != 0) | (t.barred & (t.action & fed) != 0)
}

// What is left of one transition.
fn of_one(t: Transition, fed: u64) -> Left
    ensures { result ≡ left_of fed (t ∷ []) }
{
    let named = t.needed | t.barred;
    if is_dead(t, fed) {
        return Left {
            count: 0,
            was: named,
            still: 0,
        };
    }
    Left {
        count: 1,
        was: named,
        still: named,
    }
}

// What is left of the `count` transitions from `start` on, of a chart with the feedback set `fed`.
pub fn of_list(n: Shape, body: &[u8], start: usize, count: usize, fed: u64) -> Left
    requires { Holds n body.now × (start + count ≤ n.transitions) }
    ensures { result ≡ left_of fed (from (transition_at n body.now) start count) }
{
    let mut kept: usize = 0;
    let mut was: u64 = 0;
    let mut still: u64 = 0;
    for k in 0..count {
        let one = of_one(layout::body::transition_at(n, body, start + k), fed);
        kept += one.count;
        was = was | one.was;
        still = still | one.still;
    }
    Left {
        count: kept,
        was: was,
        still: still,
    }
}

// The head of a chart of which so much is left: the signals that its guards lost join its extra set.
fn head(h: Head, l: Left) -> Head
    requires { l.count < 256 }
    ensures { result ≡ head_with h l }
{
    Head {
        states: h.states,
        initial: h.initial,
        transitions: l.count as u8,
        feedback: h.feedback,
        extra: h.extra | signals::less(l.was, l.still),
    }
}

// How many transitions are left in all charts.
fn in_all(n: Shape, body: &[u8]) -> usize
    requires { Sized n body.now × Summed n body.now }
    ensures { result ≡ transitions_in (clear (file_at n body.now)) }
{
    let charts = n.charts;
    let mut sum: usize = 0;
    let mut start: usize = 0;
    for c in 0..charts {
        let h = layout::body::head_at(n, body, c);
        let l = of_list(n, body, start, h.transitions as usize, h.feedback);
        sum += l.count;
        start += h.transitions as usize;
    }
    sum
}

// How many records of each kind the cleared file has.
pub fn shape(n: Shape, body: &[u8]) -> Shape
    requires { Sized n body.now × Summed n body.now }
    ensures { result ≡ shape_in (clear (file_at n body.now)) }
{
    let transitions = in_all(n, body);
    Shape {
        charts: n.charts,
        transitions: transitions,
        slaves: n.slaves,
        nodes: n.nodes,
        edition: limits::FIRST_EDITION as usize,
    }
}

// The heads of all charts.
fn heads(n: Shape, body: &[u8], out: &mut [u8], at: usize) -> usize
    requires { Sized n body.now × Summed n body.now
        × Room out.old at (heads_bytes n body.now) }
    ensures { Put out.old at (heads_bytes n body.now) out.new result }
{
    let charts = n.charts;
    let mut p = at;
    let mut start: usize = 0;
    for c in 0..charts {
        let h = layout::body::head_at(n, body, c);
        let l = of_list(n, body, start, h.transitions as usize, h.feedback);
        p = laying::put_head(out, p, head(h, l));
        start += h.transitions as usize;
    }
    p
}

// One transition, unless it is dead.
fn keep(t: Transition, fed: u64, out: &mut [u8], at: usize) -> usize
    requires { Room out.old at (kept_bytes fed t) }
    ensures { Put out.old at (kept_bytes fed t) out.new result }
{
    if is_dead(t, fed) {
        return at;
    }
    laying::put_transition(out, at, t)
}

// What is left of the `count` transitions from `start` on, of a chart with the feedback set `fed`.
fn chart(
    n: Shape,
    body: &[u8],
    start: usize,
    count: usize,
    fed: u64,
    out: &mut [u8],
    at: usize,
) -> usize
    requires { Holds n body.now × (start + count ≤ n.transitions)
        × Room out.old at (in_turn count (λ k. kept_bytes fed (transition_at n body.now (start + k)))) }
    ensures { Put out.old at
        (in_turn count (λ k. kept_bytes fed (transition_at n body.now (start + k)))) out.new result }
{
    let mut p = at;
    for k in 0..count {
        p = keep(layout::body::transition_at(n, body, start + k), fed, out, p);
    }
    p
}

// The transitions that are left in all charts.
fn transitions(n: Shape, body: &[u8], out: &mut [u8], at: usize) -> usize
    requires { Sized n body.now × Summed n body.now
        × Room out.old at (lists_bytes n body.now) }
    ensures { Put out.old at (lists_bytes n body.now) out.new result }
{
    let charts = n.charts;
    let mut p = at;
    let mut start: usize = 0;
    for c in 0..charts {
        let h = layout::body::head_at(n, body, c);
        p = chart(n, body, start, h.transitions as usize, h.feedback, out, p);
        start += h.transitions as usize;
    }
    p
}

// The slaves, as they were.
fn slaves(n: Shape, body: &[u8], out: &mut [u8], at: usize) -> usize
    requires { Sized n body.now × Room out.old at (slaves_bytes n body.now) }
    ensures { Put out.old at (slaves_bytes n body.now) out.new result }
{
    let slaves = n.slaves;
    let mut p = at;
    for i in 0..slaves {
        p = laying::put_slave(out, p, layout::body::slave_at(n, body, i));
    }
    p
}

// The nodes, as they were.
fn nodes(n: Shape, body: &[u8], out: &mut [u8], at: usize) -> usize
    requires { Sized n body.now × Room out.old at (nodes_bytes n body.now) }
    ensures { Put out.old at (nodes_bytes n body.now) out.new result }
{
    let nodes = n.nodes;
    let mut p = at;
    for j in 0..nodes {
        p = laying::put_node(out, p, layout::body::node_at(n, body, j));
    }
    p
}

// The cleared file, which has the shape m, over the front of `out`.
pub fn lay(n: Shape, body: &[u8], m: Shape, out: &mut [u8])
    requires { Sized n body.now × Summed n body.now × (m ≡ shape_in (clear (file_at n body.now)))
        × (length (encode (clear (file_at n body.now))) ≤ length out.old) }
    ensures { out.new ≡ laid_over (encode (clear (file_at n body.now))) out.old }
{
    let behind_heads = heads(n, body, out, 0);
    let behind_transitions = transitions(n, body, out, behind_heads);
    let behind_slaves = slaves(n, body, out, behind_transitions);
    let end = nodes(n, body, out, behind_slaves);
    laying::trailer(m, limits::FIRST_EDITION, out, end);
}
