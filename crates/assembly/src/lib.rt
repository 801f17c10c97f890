// The rewritten file in bytes, record behind record. Each function writes from a place on and gives the place behind
// what it wrote.
#![tactic(auto)]

ghost use Rattle.std.specs.Prelude.{◌≡◌, ◌+◌, ◌≤◌, ◌<◌, length};
ghost use Rattle.layout.specs.Record.{head_bytes, transition_bytes};
ghost use Rattle.meaning.specs.Numbers.{first_edition, most_nodes};
ghost use Rattle.meaning.specs.Calls.{laid_over};
ghost use Rattle.layout.specs.Body.{transition_at};
ghost use Rattle.meaning.specs.File.{file_at};
ghost use Rattle.meaning.specs.Rewriting.{calls_by, count, made_for, rewrite, rewritten_chart, head_for, in_turn};
ghost use Rattle.meaning.specs.Rewriting.{transitions_bytes, shape_in, encode};
ghost use Rattle.allocation.specs.Known.{Checked, CallsIn, InnerIn, Takes};
ghost use Rattle.assembly.specs.Known.{NamesIn, Fits, Stands, Master, Holder, Begins};
ghost use Rattle.layout.specs.Put.{Room, Put};
ghost use Rattle.assembly.specs.Records.{called_with, idle_with, part_bytes, master_bytes, held_bytes, nodes_bytes};

use layout::body::Shape;
use layout::limits::{CHARTS, NODES};
use layout::record::{Head, Kind, Node, Transition};

// Each chart's head: more transitions, the rest as it was.
fn heads(n: Shape, body: &[u8], inner: &[u64; CHARTS], out: &mut [u8], at: usize) -> usize
    requires { Checked n body.now × InnerIn (file_at n body.now) inner.now × Fits (file_at n body.now)
        × Room out.old at (in_turn n.charts (λ c. head_bytes (head_for (rewritten_chart (file_at n body.now) c)))) }
    ensures { Put out.old at
        (in_turn n.charts (λ c. head_bytes (head_for (rewritten_chart (file_at n body.now) c))))
        out.new result }
{
    let charts = n.charts;
    let mut p = at;
    for c in 0..charts {
        let h = layout::body::head_at(n, body, c);
        let new = Head {
            states: h.states,
            initial: h.initial,
            transitions: growth::in_chart(h, inner[c]) as u8,
            feedback: h.feedback,
            extra: h.extra,
        };
        p = laying::put_head(out, p, new);
    }
    p
}

// One of the own transitions of a chart, where they also need the call signal `inner` (RULES 9.3).
fn called(t: Transition, inner: u64, added: u64) -> Transition
    ensures { result ≡ called_with inner added t }
{
    Transition {
        from: t.from,
        to: t.to,
        needed: t.needed | inner,
        barred: t.barred,
        action: t.action | added,
    }
}

// The `count` own transitions of chart c, which begin at `start`.
fn own(
    n: Shape,
    body: &[u8],
    calls: &[u64; CHARTS],
    inner: u64,
    c: usize,
    start: usize,
    count: usize,
    out: &mut [u8],
    at: usize,
) -> usize
    requires { Checked n body.now × CallsIn (file_at n body.now) calls.now × (start + count ≤ n.transitions)
        × Room out.old at (in_turn count
        (λ k.
        transition_bytes (called_with inner (calls_by (file_at n body.now) c (transition_at n body.now (start + k)))
        (transition_at n body.now (start + k))))) }
    ensures { Put out.old at (in_turn count
        (λ k. transition_bytes
        (called_with inner (calls_by (file_at n body.now) c (transition_at n body.now (start + k)))
        (transition_at n body.now (start + k))))) out.new result }
{
    let mut p = at;
    for k in 0..count {
        let t = layout::body::transition_at(n, body, start + k);
        let new = called(t, inner, allocation::calls_by(n, body, calls, c, t));
        p = laying::put_transition(out, p, new);
    }
    p
}

// The idle transitions of `count` states, from 0 up, that bar the call signal `inner` (RULES 9.3).
fn idles(inner: u64, count: u8, out: &mut [u8], at: usize) -> usize
    requires { Room out.old at (in_turn count (λ s. transition_bytes (idle_with inner s))) }
    ensures { Put out.old at (in_turn count (λ s. transition_bytes (idle_with inner s)))
        out.new result }
{
    let mut p = at;
    for s in 0..count {
        let new = Transition {
            from: s,
            to: s,
            needed: 0,
            barred: inner,
            action: 0,
        };
        p = laying::put_transition(out, p, new);
    }
    p
}

// The transitions of chart c, whose head is h: own ones, which begin at `start`, then idle ones.
fn chart(
    n: Shape,
    body: &[u8],
    calls: &[u64; CHARTS],
    inner: u64,
    c: usize,
    h: Head,
    start: usize,
    out: &mut [u8],
    at: usize,
) -> usize
    requires { Checked n body.now × CallsIn (file_at n body.now) calls.now × Takes (file_at n body.now) c inner
        × Stands n body.now c h start
        × Room out.old at (transitions_bytes (rewritten_chart (file_at n body.now) c).transitions) }
    ensures { Put out.old at
        (transitions_bytes (rewritten_chart (file_at n body.now) c).transitions)
        out.new result }
{
    let idle = growth::idle_count(inner, h.states as usize);
    let p = own(
        n,
        body,
        calls,
        inner,
        c,
        start,
        h.transitions as usize,
        out,
        at,
    );
    idles(inner, idle as u8, out, p)
}

// The transitions of all charts.
fn transitions(
    n: Shape,
    body: &[u8],
    calls: &[u64; CHARTS],
    inner: &[u64; CHARTS],
    out: &mut [u8],
    at: usize,
) -> usize
    requires { Checked n body.now × CallsIn (file_at n body.now) calls.now
        × InnerIn (file_at n body.now) inner.now
        × Room out.old at
        (in_turn n.charts (λ c. transitions_bytes (rewritten_chart (file_at n body.now) c).transitions)) }
    ensures { Put out.old at
        (in_turn n.charts
        (λ c. transitions_bytes (rewritten_chart (file_at n body.now) c).transitions)) out.new result }
{
    let charts = n.charts;
    let mut p = at;
    let mut start: usize = 0;
    for c in 0..charts {
        let h = layout::body::head_at(n, body, c);
        p = chart(n, body, calls, inner[c], c, h, start, out, p);
        start += h.transitions as usize;
    }
    p
}

// The names that nodes get.
fn names(n: Shape, body: &[u8]) -> [u8; NODES]
    requires { Checked n body.now × Fits (file_at n body.now) }
    ensures { NamesIn (file_at n body.now) result }
{
    let nodes = n.nodes;
    let mut names = [0u8; NODES];
    let mut first: usize = 0;
    for j in 0..nodes {
        let name = first + growth::before_last(n, body, j);
        names[j] = name as u8;
        first = name + 1;
    }
    names
}

// The nodes that compose the slaves of chart c with it, one behind another; its own is node `first`.
fn parts(
    n: Shape,
    body: &[u8],
    names: &[u8; NODES],
    c: usize,
    x: u64,
    first: u8,
    out: &mut [u8],
    at: usize,
) -> usize
    requires { Checked n body.now × NamesIn (file_at n body.now) names.now × (first ≤ most_nodes)
        × Room out.old at (in_turn n.slaves (part_bytes (file_at n body.now) c first x)) }
    ensures { Put out.old at (in_turn n.slaves (part_bytes (file_at n body.now) c first x))
        out.new result }
{
    let slaves = n.slaves;
    let mut p = at;
    let mut made = first;
    for i in 0..slaves {
        let s = layout::body::slave_at(n, body, i);
        let node = s.node as usize;
        if s.chart as usize == c {
            let new = Node {
                kind: Kind::Composes as u8,
                a: made,
                b: names[node],
                x: x,
                y: 0,
            };
            p = laying::put_node(out, p, new);
            made += 1;
        }
    }
    p
}

// A master's nodes: its chart node, which is node `first`, one for each of its `slaves`, and a hidden one.
fn master(
    n: Shape,
    body: &[u8],
    calls: &[u64; CHARTS],
    names: &[u8; NODES],
    c: usize,
    slaves: usize,
    first: usize,
    out: &mut [u8],
    at: usize,
) -> usize
    requires { Checked n body.now × CallsIn (file_at n body.now) calls.now
        × NamesIn (file_at n body.now) names.now
        × Master (file_at n body.now) c slaves first
        × Room out.old at (master_bytes (file_at n body.now) c first slaves) }
    ensures { Put out.old at (master_bytes (file_at n body.now) c first slaves)
        out.new result }
{
    let hidden = allocation::calls_of(n, body, calls, c);
    let h = layout::body::head_at(n, body, c);
    let held = Node {
        kind: Kind::Holds as u8,
        a: c as u8,
        b: 0,
        x: 0,
        y: 0,
    };
    let p = laying::put_node(out, at, held);
    let q = parts(n, body, names, c, h.feedback | hidden, first as u8, out, p);
    let whole = Node {
        kind: Kind::Hides as u8,
        a: (first + slaves) as u8,
        b: 0,
        x: hidden,
        y: hidden,
    };
    laying::put_node(out, q, whole)
}

// The nodes that are made for a node that holds chart c; the first gets the name `first`.
fn holder(
    n: Shape,
    body: &[u8],
    calls: &[u64; CHARTS],
    names: &[u8; NODES],
    c: usize,
    first: usize,
    out: &mut [u8],
    at: usize,
) -> usize
    requires { Checked n body.now × CallsIn (file_at n body.now) calls.now
        × NamesIn (file_at n body.now) names.now
        × Holder (file_at n body.now) c first
        × Room out.old at (held_bytes (file_at n body.now) c first (count (file_at n body.now) c n.slaves)) }
    ensures { Put out.old at
        (held_bytes (file_at n body.now) c first (count (file_at n body.now) c n.slaves))
        out.new result }
{
    let slaves = growth::slaves_of(n, body, c);
    if slaves == 0 {
        let held = Node {
            kind: Kind::Holds as u8,
            a: c as u8,
            b: 0,
            x: 0,
            y: 0,
        };
        return laying::put_node(out, at, held);
    }
    master(n, body, calls, names, c, slaves, first, out, at)
}

// The nodes that are made for node j; the first gets the name `first`.
fn node(
    n: Shape,
    body: &[u8],
    calls: &[u64; CHARTS],
    names: &[u8; NODES],
    j: usize,
    first: usize,
    out: &mut [u8],
    at: usize,
) -> usize
    requires { Checked n body.now × CallsIn (file_at n body.now) calls.now
        × NamesIn (file_at n body.now) names.now
        × Begins (file_at n body.now) j first × Room out.old at (nodes_bytes (made_for (file_at n body.now) j)) }
    ensures { Put out.old at (nodes_bytes (made_for (file_at n body.now) j))
        out.new result }
{
    let r = layout::body::node_at(n, body, j);
    let a = r.a as usize;
    let b = r.b as usize;
    match Kind::of(r.kind) {
        Kind::Holds => holder(n, body, calls, names, a, first, out, at),
        Kind::Composes => {
            let both = Node {
                kind: Kind::Composes as u8,
                a: names[a],
                b: names[b],
                x: r.x,
                y: 0,
            };
            laying::put_node(out, at, both)
        }
        Kind::Hides => {
            let hidden = Node {
                kind: Kind::Hides as u8,
                a: names[a],
                b: 0,
                x: r.x,
                y: r.y,
            };
            laying::put_node(out, at, hidden)
        }
    }
}

// The nodes that are made for all nodes, in the old order.
fn nodes(
    n: Shape,
    body: &[u8],
    calls: &[u64; CHARTS],
    names: &[u8; NODES],
    out: &mut [u8],
    at: usize,
) -> usize
    requires { Checked n body.now × CallsIn (file_at n body.now) calls.now
        × NamesIn (file_at n body.now) names.now
        × Fits (file_at n body.now)
        × Room out.old at (in_turn n.nodes (λ j. nodes_bytes (made_for (file_at n body.now) j))) }
    ensures { Put out.old at
        (in_turn n.nodes (λ j. nodes_bytes (made_for (file_at n body.now) j)))
        out.new result }
{
    let nodes = n.nodes;
    let mut p = at;
    let mut first: usize = 0;
    for j in 0..nodes {
        p = node(n, body, calls, names, j, first, out, p);
        first = names[j] as usize + 1;
    }
    p
}

// The rewritten file, which has the shape m, over the front of `out`.
pub fn lay(
    n: Shape,
    body: &[u8],
    calls: &[u64; CHARTS],
    inner: &[u64; CHARTS],
    m: Shape,
    edition: u8,
    out: &mut [u8],
)
    requires { Checked n body.now × CallsIn (file_at n body.now) calls.now
        × InnerIn (file_at n body.now) inner.now
        × Fits (file_at n body.now) × (m ≡ shape_in (rewrite (file_at n body.now))) × (edition ≡ first_edition)
        × (length (encode (rewrite (file_at n body.now))) ≤ length out.old) }
    ensures { out.new ≡ laid_over (encode (rewrite (file_at n body.now))) out.old }
{
    let names = names(n, body);
    let behind_heads = heads(n, body, inner, out, 0);
    let behind_transitions = transitions(n, body, calls, inner, out, behind_heads);
    let end = nodes(n, body, calls, &names, out, behind_transitions);
    laying::trailer(m, edition, out, end);
}
