// Which files are plain (RULES 8): whether each two transitions of a chart that leave the same state are told apart by
// a signal that is not fed back.
#![tactic(auto)]

ghost use Rattle.std.specs.Prelude.{◌≡◌, cond, ◌+◌, ◌≤◌, ◌<◌};
ghost use Rattle.layout.specs.Body.{Holds, from, transition_at};
ghost use Rattle.meaning.specs.Meaning.{∅, same};
ghost use Rattle.meaning.specs.File.{file_at};
ghost use Rattle.meaning.specs.Rewriting.{union_up_to};
ghost use Rattle.meaning.specs.Plain.{fed_back, told_apart, doubtful, doubtful_with, any_doubtful, plain_in};
ghost use Rattle.checks.specs.Known.{Sized, Summed};

use layout::body::Shape;
use layout::record::{Kind, Transition};

// The signals in feedback sets of charts.
fn fed_by_charts(n: Shape, body: &[u8]) -> u64
    requires { Holds n body.now }
    ensures { result ≡ union_up_to n.charts (λ c. ((file_at n body.now).chart c).feedback) }
{
    let mut all: u64 = 0;
    for c in 0..n.charts {
        let h = layout::body::head_at(n, body, c);
        all = all | h.feedback;
    }
    all
}

// The feedback set of a node that is composed; others have none.
fn fed_by_node(n: Shape, body: &[u8], j: usize) -> u64
    requires { Holds n body.now × (j < n.nodes) }
    ensures { result ≡ cond (same ((file_at n body.now).kind j) 1) ((file_at n body.now).x j) ∅ }
{
    let r = layout::body::node_at(n, body, j);
    let composes = Kind::Composes as u8;
    if r.kind == composes { r.x } else { 0 }
}

// The signals in feedback sets of nodes.
fn fed_by_nodes(n: Shape, body: &[u8]) -> u64
    requires { Holds n body.now }
    ensures { result ≡ union_up_to n.nodes
        (λ j. cond (same ((file_at n body.now).kind j) 1) ((file_at n body.now).x j) ∅) }
{
    let mut all: u64 = 0;
    for j in 0..n.nodes {
        all = all | fed_by_node(n, body, j);
    }
    all
}

// All signals that are fed back (RULES 8.1).
fn fed_back(n: Shape, body: &[u8]) -> u64
    requires { Holds n body.now }
    ensures { result ≡ fed_back (file_at n body.now) }
{
    fed_by_charts(n, body) | fed_by_nodes(n, body)
}

// One of the two needs a signal that the other bars, and it is not fed back (RULES 8.2).
fn told_apart(fed: u64, t: Transition, u: Transition) -> bool
    ensures { result ≡ told_apart fed t u }
{
    signals::less(t.needed & u.barred | t.barred & u.needed, fed) != 0
}

// Two from one state that are not told apart.
fn is_doubtful(fed: u64, t: Transition, u: Transition) -> bool
    ensures { result ≡ doubtful fed t u }
{
    (t.from == u.from) & !told_apart(fed, t, u)
}

// t and some one of `count` transitions from `start` on.
fn doubtful_with(n: Shape, body: &[u8], fed: u64, t: Transition, start: usize, count: usize) -> bool
    requires { Holds n body.now × (start + count ≤ n.transitions) }
    ensures { result ≡ doubtful_with fed t (from (transition_at n body.now) start count) }
{
    for k in 0..count {
        if is_doubtful(fed, t, layout::body::transition_at(n, body, start + k)) {
            return true;
        }
    }
    false
}

// Some two of `count` transitions from `start` on: one, and one behind it.
fn any_doubtful(n: Shape, body: &[u8], fed: u64, start: usize, count: usize) -> bool
    requires { Holds n body.now × (start + count ≤ n.transitions) }
    ensures { result ≡ any_doubtful fed (from (transition_at n body.now) start count) }
{
    for i in 0..count {
        let t = layout::body::transition_at(n, body, start + i);
        let next = i + 1;
        if doubtful_with(n, body, fed, t, start + next, count - next) {
            return true;
        }
    }
    false
}

// Whether a body that no check refuses is plain.
pub fn is_plain(n: Shape, body: &[u8]) -> bool
    requires { Sized n body.now × Summed n body.now }
    ensures { result ≡ plain_in (file_at n body.now) }
{
    let fed = fed_back(n, body);
    let mut start: usize = 0;
    for c in 0..n.charts {
        let h = layout::body::head_at(n, body, c);
        let count = h.transitions as usize;
        if any_doubtful(n, body, fed, start, count) {
            return false;
        }
        start += count;
    }
    true
}
