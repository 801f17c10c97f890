// Refusal 10 (RULES 3.2): each chart has one node that holds it, each node one name except the last, which has none,
// and a slave's node comes below its master's. One walk over slaves and nodes fills the tables: how often each node is
// named, how many nodes hold each chart, and which was the last of them.
ghost use Rattle.std.specs.Prelude.{◌≡◌, cond, ◌+◌, ◌≤◌, ◌<◌, suc};
ghost use Rattle.meaning.specs.Numbers.{most_charts, most_nodes};
ghost use Rattle.meaning.specs.Meaning.{same};
ghost use Rattle.meaning.specs.File.{file_at};
ghost use Rattle.meaning.specs.Check.{naming?};
ghost use Rattle.checks.specs.Known.{Ranged};
ghost use Rattle.checks.specs.Walk.{Table};
ghost use Rattle.naming.specs.Names.{named_by, Walked, held_amiss, named_amiss, masters_amiss};

use checks::limits::{MOST_CHARTS, MOST_NODES};
use layout::body::Shape;
use layout::record::Kind;

// The walk over slaves: how often they name each node.
fn named_by_slaves(n: Shape, body: &[u8]) -> [u8; MOST_NODES as usize]
    requires { Ranged n body.now }
    ensures { Table most_nodes (named_by (file_at n body.now) n.slaves 0) result }
{
    let mut named = [0u8; MOST_NODES as usize];
    for i in 0..n.slaves {
        let s = layout::body::slave_at(n, body, i);
        let node = s.node as usize;
        named[node] += 1;
    }
    named
}

// Node k, where the tables have what is below it.
fn walk_node(
    n: Shape,
    body: &[u8],
    k: usize,
    named: &mut [u8; MOST_NODES as usize],
    held: &mut [u8; MOST_CHARTS as usize],
    holder: &mut [u8; MOST_CHARTS as usize],
)
    requires { Ranged n body.now
        × ((k < n.nodes) × Walked (file_at n body.now) k named.old held.old holder.old) }
    ensures { Walked (file_at n body.now) (k + 1) named.new held.new
        holder.new }
{
    let r = layout::body::node_at(n, body, k);
    let a = r.a as usize;
    let b = r.b as usize;
    match Kind::of(r.kind) {
        Kind::Holds => {
            held[a] += 1;
            holder[a] = k as u8;
        }
        Kind::Composes => {
            named[a] += 1;
            named[b] += 1;
        }
        Kind::Hides => {
            named[a] += 1;
        }
    }
}

// The walk over nodes, where the tables have what slaves name.
fn walk_nodes(
    n: Shape,
    body: &[u8],
    named: &mut [u8; MOST_NODES as usize],
    held: &mut [u8; MOST_CHARTS as usize],
    holder: &mut [u8; MOST_CHARTS as usize],
)
    requires { Ranged n body.now × Walked (file_at n body.now) 0 named.old held.old holder.old }
    ensures { Walked (file_at n body.now) n.nodes named.new held.new
        holder.new }
{
    for k in 0..n.nodes {
        walk_node(n, body, k, named, held, holder);
    }
}

// A chart is held by no node, or by several.
fn bad_held(n: Shape, held: &[u8; MOST_CHARTS as usize]) -> bool
    requires { n.charts ≤ most_charts }
    ensures { result ≡ held_amiss n.charts held.now }
{
    for c in 0..n.charts {
        if held[c] != 1 {
            return true;
        }
    }
    false
}

// How often node j has to be named: the last not at all, any other once.
fn due(n: Shape, j: usize) -> u8
    requires { j < n.nodes }
    ensures { result ≡ cond (same (suc j) n.nodes) 0 1 }
{
    if j + 1 == n.nodes { 0 } else { 1 }
}

// A node is not named as often as is due.
fn bad_named(n: Shape, named: &[u8; MOST_NODES as usize]) -> bool
    requires { n.nodes ≤ most_nodes }
    ensures { result ≡ named_amiss n.nodes named.now }
{
    for j in 0..n.nodes {
        if named[j] != due(n, j) {
            return true;
        }
    }
    false
}

// A slave's node does not come below its master's.
fn bad_masters(n: Shape, body: &[u8], holder: &[u8; MOST_CHARTS as usize]) -> bool
    requires { Ranged n body.now }
    ensures { result ≡ masters_amiss (file_at n body.now) holder.now }
{
    for i in 0..n.slaves {
        let s = layout::body::slave_at(n, body, i);
        let master = s.chart as usize;
        if s.node >= holder[master] {
            return true;
        }
    }
    false
}

pub fn bad_naming(n: Shape, body: &[u8]) -> bool
    requires { Ranged n body.now }
    ensures { result ≡ naming? (file_at n body.now) }
{
    let mut named = named_by_slaves(n, body);
    let mut held = [0u8; MOST_CHARTS as usize];
    let mut holder = [0u8; MOST_CHARTS as usize];
    walk_nodes(n, body, &mut named, &mut held, &mut holder);
    if bad_held(n, &held) {
        return true;
    }
    if bad_named(n, &named) {
        return true;
    }
    bad_masters(n, body, &holder)
}
