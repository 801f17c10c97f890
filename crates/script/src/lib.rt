// The text of a file's tree, written at a place of a buffer (crate printing has the sequential charts). A node is read
// down to a depth; each node names lower ones, so a depth of all nodes is all of the tree.
#![tactic(auto)]

ghost use Rattle.std.specs.Prelude.{◌≡◌, ◌≤◌, ◌<◌, length};
ghost use Rattle.layout.specs.Put.{Put};
ghost use Rattle.meaning.specs.File.{file_at, build};
ghost use Rattle.notation.specs.Grammar.{comma};
ghost use Rattle.spelling.specs.Numbers.{most_text};
ghost use Rattle.spelling.specs.Write.{text_in};
ghost use Rattle.printing.specs.Prints.{Prints};
ghost use Rattle.printing.specs.Separated.{in_turn, Adds};
ghost use Rattle.script.specs.Tree.{Legible, composes as composesTree, decomposes as hasSlaves, text_by, part_by};
ghost use Rattle.script.specs.Tree.{composed_by, hidden_by, held_by, master_by, slave_text, slave_if, slaves_in};

use layout::body::Shape;
use layout::record::{Kind, Node};
use printing::{charts, sets, signs};

// The list of the slaves of a chart: where it begins.
#[derive(Clone, Copy)]
pub struct Held {
    pub chart: u8,
    pub first: usize,
}

// Chart c has slaves.
fn decomposes(n: Shape, body: &[u8], c: u8) -> bool
    requires { Legible n body.now }
    ensures { result ≡ hasSlaves (file_at n body.now) c }
{
    let count = n.slaves;
    for i in 0..count {
        let s = layout::body::slave_at(n, body, i);
        if s.chart == c {
            return true;
        }
    }
    false
}

// Node j is a composition.
fn composes(n: Shape, body: &[u8], j: usize, left: usize) -> bool
    requires { Legible n body.now × (j < n.nodes) }
    ensures { result ≡ composesTree (build (file_at n body.now) left j) }
{
    if left == 0 {
        return false;
    }
    let composes = Kind::Composes as u8;
    layout::body::node_at(n, body, j).kind == composes
}

// Node j by itself.
#[cycle(descent)]
fn chart(n: Shape, body: &[u8], j: usize, left: usize, out: &mut [u8], at: usize) -> usize
    requires { Legible n body.now × (j < n.nodes) }
    ensures { Prints out.old at (text_by (file_at n body.now)
        (build (file_at n body.now) left j)) out.new result }
{
    if left == 0 {
        return charts::sequential(n, body, 0, out, at);
    }
    let node = layout::body::node_at(n, body, j);
    match Kind::of(node.kind) {
        Kind::Holds => master(n, body, node.a, left - 1, out, at),
        Kind::Composes => pair(n, body, node, left - 1, out, at),
        Kind::Hides => hidden(n, body, node, left - 1, out, at),
    }
}

// Node j as a part of a composition: a composition stands in round brackets there.
#[cycle(descent)]
fn part(n: Shape, body: &[u8], j: usize, left: usize, out: &mut [u8], at: usize) -> usize
    requires { Legible n body.now × (j < n.nodes) }
    ensures { Prints out.old at (part_by (file_at n body.now)
        (build (file_at n body.now) left j)) out.new result }
{
    if composes(n, body, j, left) {
        let inside = signs::sign(out, at, b'(');
        let end = chart(n, body, j, left, out, inside);
        return signs::sign(out, end, b')');
    }
    chart(n, body, j, left, out, at)
}

// The two parts that a node names, with the feedback set between them.
#[cycle(descent)]
fn pair(n: Shape, body: &[u8], node: Node, left: usize, out: &mut [u8], at: usize) -> usize
    requires { Legible n body.now × (node.a < n.nodes) × (node.b < n.nodes) }
    ensures { Prints out.old at (text_by (file_at n body.now)
        (composed_by (file_at n body.now) left node)) out.new result }
{
    let bar = part(n, body, node.a as usize, left, out, at);
    let feedback = signs::sign(out, bar, b'|');
    let behind = sets::set(node.x, out, feedback);
    let next = signs::sign(out, behind, b'|');
    part(n, body, node.b as usize, left, out, next)
}

// The chart that a node names, between its two hiding sets.
#[cycle(descent)]
fn hidden(n: Shape, body: &[u8], node: Node, left: usize, out: &mut [u8], at: usize) -> usize
    requires { Legible n body.now × (node.a < n.nodes) }
    ensures { Prints out.old at (text_by (file_at n body.now)
        (hidden_by (file_at n body.now) left node)) out.new result }
{
    let open = sets::set(node.x, out, at);
    let inside = signs::sign(out, open, b'[');
    let close = chart(n, body, node.a as usize, left, out, inside);
    let outputs = signs::sign(out, close, b']');
    sets::set(node.y, out, outputs)
}

// Chart c with its slaves; without any it is a sequential chart.
#[cycle(descent)]
fn master(n: Shape, body: &[u8], c: u8, left: usize, out: &mut [u8], at: usize) -> usize
    requires { Legible n body.now × (c < n.charts) }
    ensures { Prints out.old at (text_by (file_at n body.now)
        (master_by (file_at n body.now) left c)) out.new result }
{
    if decomposes(n, body, c) {
        let chart = signs::dec(out, at);
        let by = charts::sequential(n, body, c as usize, out, chart);
        let brace = signs::by(out, by);
        let first = signs::sign(out, brace, b'{');
        let list = Held {
            chart: c,
            first: first,
        };
        let end = slaves(n, body, list, left, out);
        return signs::sign(out, end, b'}');
    }
    charts::sequential(n, body, c as usize, out, at)
}

// The slaves of a chart, in the order of their records.
#[cycle(descent)]
fn slaves(n: Shape, body: &[u8], list: Held, left: usize, out: &mut [u8]) -> usize
    requires { Legible n body.now }
    ensures { Prints out.old list.first (in_turn comma (slave_text (file_at n body.now))
        (slaves_in (held_by (file_at n body.now) left list.chart (file_at n body.now).slaves)))
        out.new result }
{
    let count = n.slaves;
    let mut at = list.first;
    for i in 0..count {
        at = slave(n, body, i, list, left, out, at);
    }
    at
}

// Slave i, if it is of the list's chart.
#[cycle(descent)]
fn slave(
    n: Shape,
    body: &[u8],
    i: usize,
    list: Held,
    left: usize,
    out: &mut [u8],
    at: usize,
) -> usize
    requires { Legible n body.now × (i < n.slaves) }
    ensures { Adds comma (slave_text (file_at n body.now))
        (slave_if (file_at n body.now) left list.chart i) list.first out.old at
        out.new result }
{
    let s = layout::body::slave_at(n, body, i);
    if s.chart != list.chart {
        return at;
    }
    let open = sets::apart(out, list.first, at, b',');
    let state = signs::sign(out, open, b'(');
    let behind = signs::name(out, state, b'q', s.state);
    let inside = signs::sign(out, behind, b',');
    let end = chart(n, body, s.node as usize, left, out, inside);
    signs::sign(out, end, b')')
}

// The text of a file's body, from the front of a buffer on; its length.
pub fn text(n: Shape, body: &[u8], out: &mut [u8]) -> usize
    requires { Legible n body.now × (length (text_in (file_at n body.now)) ≤ most_text) }
    ensures { Put out.old 0 (text_in (file_at n body.now)) out.new result }
{
    chart(n, body, n.nodes - 1, n.nodes, out, 0)
}
