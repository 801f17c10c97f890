// How large the rewritten file is: transitions out of a state, in a chart and in all, and nodes.
#![tactic(auto)]

ghost use Rattle.std.specs.Prelude.{◌≡◌, ◌+◌, ◌≤◌, ◌<◌, ltb, length};
ghost use Rattle.layout.specs.Body.{Holds, from, transition_at};
ghost use Rattle.meaning.specs.Numbers.{most_slaves};
ghost use Rattle.meaning.specs.Sums.{any_up_to};
ghost use Rattle.meaning.specs.File.{file_at};
ghost use Rattle.meaning.specs.Rewriting.{count, before_last, start, rewrite, leaving_in, transitions_in, shape_in};
ghost use Rattle.allocation.specs.Known.{Checked, InnerIn};
ghost use Rattle.growth.specs.Growth.{idle_count};

use layout::body::Shape;
use layout::limits::CHARTS;
use layout::record::{Head, Kind};

// How many idle transitions there are for `states` of a chart with the call signal `inner`.
pub fn idle_count(inner: u64, states: usize) -> usize
    ensures { result ≡ idle_count inner states }
{
    if inner == 0 { 0 } else { states }
}

// How many of `count` transitions from `start` on are from the state s.
fn leaving(n: Shape, body: &[u8], start: usize, count: usize, s: u8) -> usize
    requires { Holds n body.now × (start + count ≤ n.transitions) }
    ensures { (result ≡ leaving_in (from (transition_at n body.now) start count) s) × (result ≤ count) }
{
    let mut times: usize = 0;
    for k in 0..count {
        let t = layout::body::transition_at(n, body, start + k);
        if t.from == s {
            times += 1;
        }
    }
    times
}

// More than `most` transitions would leave one state of a chart: its own ones, which begin at `start`, and `idle` more.
fn over_from_states(n: Shape, body: &[u8], start: usize, h: Head, idle: usize, most: usize) -> bool
    requires { Holds n body.now × (start + h.transitions ≤ n.transitions) × (idle ≤ 1) }
    ensures { result
        ≡ any_up_to h.states
        (λ s. ltb most (leaving_in (from (transition_at n body.now) start h.transitions) s + idle)) }
{
    let states = h.states;
    let count = h.transitions as usize;
    for s in 0..states {
        if most < leaving(n, body, start, count, s) + idle {
            return true;
        }
    }
    false
}

// 41: more than `most` transitions would leave one state.
pub fn over_from(n: Shape, body: &[u8], inner: &[u64; CHARTS], most: usize) -> bool
    requires { Checked n body.now × InnerIn (file_at n body.now) inner.now }
    ensures { result ≡ any_up_to n.charts (λ c. any_up_to ((rewrite (file_at n body.now)).chart c).states
        (λ s. ltb most (leaving_in ((rewrite (file_at n body.now)).chart c).transitions s))) }
{
    let charts = n.charts;
    let mut start: usize = 0;
    for c in 0..charts {
        let h = layout::body::head_at(n, body, c);
        if over_from_states(n, body, start, h, idle_count(inner[c], 1), most) {
            return true;
        }
        start += h.transitions as usize;
    }
    false
}

// How many transitions a rewritten chart has.
pub fn in_chart(h: Head, inner: u64) -> usize
    ensures { (result ≡ h.transitions + idle_count inner h.states) × (result ≤ 510) }
{
    h.transitions as usize + idle_count(inner, h.states as usize)
}

// 42: more than `most` transitions would be in one chart.
pub fn over_in_chart(n: Shape, body: &[u8], inner: &[u64; CHARTS], most: usize) -> bool
    requires { Checked n body.now × InnerIn (file_at n body.now) inner.now }
    ensures { result ≡ any_up_to n.charts
        (λ c. ltb most (length ((rewrite (file_at n body.now)).chart c).transitions)) }
{
    let charts = n.charts;
    for c in 0..charts {
        if most < in_chart(layout::body::head_at(n, body, c), inner[c]) {
            return true;
        }
    }
    false
}

// How many transitions all charts have.
fn in_all(n: Shape, body: &[u8], inner: &[u64; CHARTS]) -> usize
    requires { Checked n body.now × InnerIn (file_at n body.now) inner.now }
    ensures { result ≡ transitions_in (rewrite (file_at n body.now)) }
{
    let charts = n.charts;
    let mut sum: usize = 0;
    for c in 0..charts {
        sum += in_chart(layout::body::head_at(n, body, c), inner[c]);
    }
    sum
}

// How many slaves chart c has.
pub fn slaves_of(n: Shape, body: &[u8], c: usize) -> usize
    requires { Checked n body.now }
    ensures { (result ≡ count (file_at n body.now) c n.slaves) × (result ≤ n.slaves) }
{
    let slaves = n.slaves;
    let mut times: usize = 0;
    for i in 0..slaves {
        if layout::body::slave_at(n, body, i).chart as usize == c {
            times += 1;
        }
    }
    times
}

// How many nodes come before the last one that is made for node j.
pub fn before_last(n: Shape, body: &[u8], j: usize) -> usize
    requires { Checked n body.now × (j < n.nodes) }
    ensures { (result ≡ before_last (file_at n body.now) j) × (result ≤ most_slaves + 1) }
{
    let node = layout::body::node_at(n, body, j);
    let Kind::Holds = Kind::of(node.kind) else {
        return 0;
    };
    let slaves = slaves_of(n, body, node.a as usize);
    if slaves == 0 { 0 } else { slaves + 1 }
}

// How many nodes are made for all nodes.
fn nodes(n: Shape, body: &[u8]) -> usize
    requires { Checked n body.now }
    ensures { result ≡ start (file_at n body.now) n.nodes }
{
    let mut sum: usize = 0;
    for j in 0..n.nodes {
        sum += before_last(n, body, j) + 1;
    }
    sum
}

// How many records of each kind the rewritten file has.
pub fn shape(n: Shape, body: &[u8], inner: &[u64; CHARTS]) -> Shape
    requires { Checked n body.now × InnerIn (file_at n body.now) inner.now }
    ensures { result ≡ shape_in (rewrite (file_at n body.now)) }
{
    let transitions = in_all(n, body, inner);
    let nodes = nodes(n, body);
    Shape {
        charts: n.charts,
        transitions: transitions,
        slaves: 0,
        nodes: nodes,
        edition: checks::limits::FIRST_EDITION as usize,
    }
}
