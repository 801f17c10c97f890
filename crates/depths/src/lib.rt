// Whether a file is nested deeper than a text may be: of each node how deep it is, from node 0 up.
#![tactic(auto)]

ghost use Rattle.std.specs.Prelude.{◌≡◌, ltb};
ghost use Rattle.meaning.specs.File.{file_at};
ghost use Rattle.meaning.specs.Check.Nodes.{Treed};
ghost use Rattle.notation.specs.Syntax.{larger, depth};
ghost use Rattle.reading.specs.Numbers.{most_depth};
ghost use Rattle.spelling.specs.Write.{chart_in};
ghost use Rattle.checks.specs.Known.{Sized};
ghost use Rattle.depths.specs.Depths.{depth_at, deepest_by, Depths, Reached};

use layout::body::Shape;
use layout::limits;
use layout::record::Kind;

// A text is nested so deep at most.
const MOST_DEPTH: u8 = reading::MOST_DEPTH;

fn larger(a: u8, b: u8) -> u8
    ensures { result ≡ larger a b }
{
    if a < b {
        return b;
    }
    a
}

// How deep the deepest slave of chart c is by the table, 0 if it has none.
fn deepest(n: Shape, body: &[u8], deep: &[u8; limits::NODES], c: usize) -> u8
    requires { Sized n body.now × Treed (file_at n body.now) }
    ensures { result ≡ deepest_by (file_at n body.now) deep.now c n.slaves }
{
    let mut most: u8 = 0;
    for i in 0..n.slaves {
        let s = layout::body::slave_at(n, body, i);
        let node = s.node as usize;
        if s.chart as usize == c {
            most = larger(most, deep[node]);
        }
    }
    most
}

// How deep node j is, where the table has the lower ones: one deeper than the slaves of its chart or than its parts.
fn depth(n: Shape, body: &[u8], deep: &[u8; limits::NODES], j: usize) -> u8
    requires { Sized n body.now × (Treed (file_at n body.now) × Reached n body.now deep.now j) }
    ensures { result ≡ depth_at (file_at n body.now) j }
{
    let r = layout::body::node_at(n, body, j);
    let a = r.a as usize;
    let b = r.b as usize;
    match Kind::of(r.kind) {
        Kind::Holds => deepest(n, body, deep, a) + 1,
        Kind::Composes => larger(deep[a], deep[b]) + 1,
        Kind::Hides => deep[a] + 1,
    }
}

// How deep each node is.
fn depths(n: Shape, body: &[u8]) -> [u8; limits::NODES]
    requires { Sized n body.now × Treed (file_at n body.now) }
    ensures { Depths (file_at n body.now) result n.nodes }
{
    let mut deep = [0u8; limits::NODES];
    for j in 0..n.nodes {
        deep[j] = depth(n, body, &deep, j);
    }
    deep
}

// The whole, which is the last node, is deeper than a text may be.
pub fn too_deep(n: Shape, body: &[u8]) -> bool
    requires { Sized n body.now × Treed (file_at n body.now) }
    ensures { result ≡ ltb most_depth (depth (chart_in (file_at n body.now))) }
{
    let deep = depths(n, body);
    let last = n.nodes - 1;
    MOST_DEPTH < deep[last]
}
