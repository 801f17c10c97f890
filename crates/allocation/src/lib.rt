// Call signals: the signals that a file uses, for each slave the lowest that is left, and which a chart needs and
// outputs.
#![tactic(auto)]

ghost use Rattle.std.specs.Prelude.{◌≡◌, cond, ◌+◌, ◌≤◌, ltb, get_or};
ghost use Rattle.signals.specs.Mask.{◌∪◌};
ghost use Rattle.layout.specs.Body.{Holds, from, transition_at};
ghost use Rattle.meaning.specs.Meaning.{guards, actions};
ghost use Rattle.meaning.specs.Numbers.{most_charts, most_slaves};
ghost use Rattle.meaning.specs.File.{file_at};
ghost use Rattle.meaning.specs.Rewriting.{union_up_to, used, calls_by, calls_of};
ghost use Rattle.allocation.specs.Known.{Checked, Calling, CallsIn, InnerIn, Upward};

use layout::body::Shape;
use layout::limits::CHARTS;
use layout::record::{Kind, Transition};

// The signals of `count` transitions from `start` on.
fn used_by(n: Shape, body: &[u8], start: usize, count: usize) -> u64
    requires { Holds n body.now × (start + count ≤ n.transitions) }
    ensures { result ≡ guards (from (transition_at n body.now) start count)
        ∪ actions (from (transition_at n body.now) start count) }
{
    let mut all: u64 = 0;
    for k in 0..count {
        let t = layout::body::transition_at(n, body, start + k);
        all = all | (t.needed | t.barred | t.action);
    }
    all
}

// The signals in the sets of charts.
fn used_by_charts(n: Shape, body: &[u8]) -> u64
    requires { Checked n body.now }
    ensures { result ≡ union_up_to n.charts (λ c. guards ((file_at n body.now).chart c).transitions
        ∪ actions ((file_at n body.now).chart c).transitions
        ∪ ((file_at n body.now).chart c).feedback ∪ ((file_at n body.now).chart c).extra) }
{
    let mut all: u64 = 0;
    let mut start: usize = 0;
    for c in 0..n.charts {
        let h = layout::body::head_at(n, body, c);
        let count = h.transitions as usize;
        let own = used_by(n, body, start, count);
        all = all | (own | h.feedback | h.extra);
        start += count;
    }
    all
}

// The signals in the sets of nodes.
fn used_by_nodes(n: Shape, body: &[u8]) -> u64
    requires { Checked n body.now }
    ensures { result ≡ union_up_to n.nodes
        (λ j. (file_at n body.now).x j ∪ (file_at n body.now).y j) }
{
    let mut all: u64 = 0;
    for j in 0..n.nodes {
        let r = layout::body::node_at(n, body, j);
        all = all | (r.x | r.y);
    }
    all
}

// All signals in the sets of the file.
pub fn used(n: Shape, body: &[u8]) -> u64
    requires { Checked n body.now }
    ensures { result ≡ used (file_at n body.now) }
{
    used_by_charts(n, body) | used_by_nodes(n, body)
}

// The slaves get the lowest free signals for their call signals, in the order of their records (RULES 9.2): of each
// slave the set of its call signal alone, if there are enough free signals.
pub fn given(slaves: usize, used: u64) -> Option<[u64; CHARTS]>
    requires { slaves ≤ most_charts }
    ensures { Calling used slaves result }
{
    let mut sets = [0u64; CHARTS];
    let mut left = used;
    for i in 0..slaves {
        let s = signals::lowest_free(left)?;
        sets[i] = signals::single(s);
        left = signals::with(left, s);
    }
    Some(sets)
}

// The call signal of slave i; none for a number that is no slave's.
fn call_of(calls: &[u64; CHARTS], slaves: usize, i: u8) -> u64
    requires { slaves ≤ most_slaves }
    ensures { result ≡ cond (ltb i slaves) (get_or calls.now i 0) 0 }
{
    let at = i as usize;
    if at < slaves { calls[at] } else { 0 }
}

// Of each chart the call signal of its nearest slave (RULES 9.3).
pub fn inner(n: Shape, body: &[u8], calls: &[u64; CHARTS]) -> [u64; CHARTS]
    requires { Checked n body.now × CallsIn (file_at n body.now) calls.now × Upward (file_at n body.now) }
    ensures { InnerIn (file_at n body.now) result }
{
    let near = nesting::enclosers(n, body);
    let nodes = n.nodes;
    let slaves = n.slaves;
    let mut inner = [0u64; CHARTS];
    for j in 0..nodes {
        let node = layout::body::node_at(n, body, j);
        let c = node.a as usize;
        if let Kind::Holds = Kind::of(node.kind) {
            inner[c] = call_of(calls, slaves, near[j]);
        }
    }
    inner
}

// The call signals that a transition of chart c also outputs: of each slave of c whose state it leaves or enters
// (RULES 9.3).
pub fn calls_by(n: Shape, body: &[u8], calls: &[u64; CHARTS], c: usize, t: Transition) -> u64
    requires { Checked n body.now × CallsIn (file_at n body.now) calls.now }
    ensures { result ≡ calls_by (file_at n body.now) c t }
{
    let slaves = n.slaves;
    let mut all: u64 = 0;
    for i in 0..slaves {
        let s = layout::body::slave_at(n, body, i);
        if (s.chart as usize == c) & ((t.from == s.state) | (t.to == s.state)) {
            all = all | calls[i];
        }
    }
    all
}

// The call signals of all slaves of chart c (RULES 9.4).
pub fn calls_of(n: Shape, body: &[u8], calls: &[u64; CHARTS], c: usize) -> u64
    requires { Checked n body.now × CallsIn (file_at n body.now) calls.now }
    ensures { result ≡ calls_of (file_at n body.now) c }
{
    let slaves = n.slaves;
    let mut all: u64 = 0;
    for i in 0..slaves {
        let s = layout::body::slave_at(n, body, i);
        if s.chart as usize == c {
            all = all | calls[i];
        }
    }
    all
}
