// Values of the parts that nodes make, from node 0 up: each node names lower ones. A chart's own value is given; parts
// are joined; hiding takes off.
#![tactic(auto)]

ghost use Rattle.std.specs.Prelude.{◌≡◌, ◌<◌};
ghost use Rattle.meaning.specs.File.{file_at};
ghost use Rattle.meaning.specs.Check.Nodes.{Treed};
ghost use Rattle.checks.specs.Known.{Sized};
ghost use Rattle.parts.specs.Parts.{off_of, with_slaves, value_at, Filled};

use checks::limits::{MOST_CHARTS, MOST_NODES};
use layout::body::Shape;
use layout::record::Kind;

// What hiding takes off: of an input interface x, of an output interface y.
#[derive(Clone, Copy)]
pub enum Off {
    Input,
    Output,
}

fn taken(off: Off, x: u64, y: u64) -> u64
    ensures { result ≡ off_of off x y }
{
    match off {
        Off::Input => x,
        Off::Output => y,
    }
}

// Joined with what slaves of chart c have in the table.
fn with_slaves(n: Shape, body: &[u8], table: &[u64; MOST_NODES as usize], c: usize, own: u64) -> u64
    requires { Sized n body.now × Treed (file_at n body.now) }
    ensures { result ≡ with_slaves (file_at n body.now) table.now c own n.slaves }
{
    let mut all = own;
    for i in 0..n.slaves {
        let s = layout::body::slave_at(n, body, i);
        let node = s.node as usize;
        if s.chart as usize == c {
            all = all | table[node];
        }
    }
    all
}

// The value of node j, where the table has those of lower nodes.
fn value(
    n: Shape,
    body: &[u8],
    own: &[u64; MOST_CHARTS as usize],
    off: Off,
    table: &[u64; MOST_NODES as usize],
    j: usize,
) -> u64
    requires { Sized n body.now × (Treed (file_at n body.now) × (j < n.nodes)) }
    ensures { result ≡ value_at (file_at n body.now) own.now off table.now j }
{
    let r = layout::body::node_at(n, body, j);
    let a = r.a as usize;
    let b = r.b as usize;
    match Kind::of(r.kind) {
        Kind::Holds => with_slaves(n, body, table, a, own[a]),
        Kind::Composes => table[a] | table[b],
        Kind::Hides => signals::less(table[a], taken(off, r.x, r.y)),
    }
}

// The values of all nodes.
pub fn table(
    n: Shape,
    body: &[u8],
    own: &[u64; MOST_CHARTS as usize],
    off: Off,
) -> [u64; MOST_NODES as usize]
    requires { Sized n body.now × Treed (file_at n body.now) }
    ensures { Filled (file_at n body.now) own.now off result n.nodes }
{
    let mut t = [0u64; MOST_NODES as usize];
    for j in 0..n.nodes {
        t[j] = value(n, body, own, off, &t, j);
    }
    t
}
