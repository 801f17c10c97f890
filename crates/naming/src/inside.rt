// Refusal 11: charts inside a slave are above its master. Of each node the lowest chart is found, slaves left out: if
// all slaves pass, they have none that is lower.
ghost use Rattle.std.specs.Prelude.{◌≡◌, false, ◌<◌};
ghost use Rattle.meaning.specs.File.{file_at, tree_of};
ghost use Rattle.meaning.specs.Check.{naming?, inside?};
ghost use Rattle.meaning.specs.Check.Nodes.{Treed};
ghost use Rattle.checks.specs.Known.{Sized, Ranged};
ghost use Rattle.naming.specs.Inside.{lowest, Lows};

use checks::limits::MOST_NODES;
use layout::body::Shape;
use layout::record::Kind;

// The lowest chart of node j, where the table has those of lower nodes.
fn lowest(n: Shape, body: &[u8], low: &[u8; MOST_NODES as usize], j: usize) -> u8
    requires { Sized n body.now
        × (Treed (file_at n body.now) × ((j < n.nodes) × Lows (file_at n body.now) low.now j)) }
    ensures { result ≡ lowest (tree_of (file_at n body.now) j) }
{
    let r = layout::body::node_at(n, body, j);
    let a = r.a as usize;
    let b = r.b as usize;
    match Kind::of(r.kind) {
        Kind::Holds => r.a,
        Kind::Composes => if low[a] < low[b] { low[a] } else { low[b] },
        Kind::Hides => low[a],
    }
}

// The lowest charts of all nodes.
fn lows(n: Shape, body: &[u8]) -> [u8; MOST_NODES as usize]
    requires { Sized n body.now × Treed (file_at n body.now) }
    ensures { Lows (file_at n body.now) result n.nodes }
{
    let mut low = [0u8; MOST_NODES as usize];
    for j in 0..n.nodes {
        low[j] = lowest(n, body, &low, j);
    }
    low
}

pub fn bad_inside(n: Shape, body: &[u8]) -> bool
    requires { Ranged n body.now × (naming? (file_at n body.now) ≡ false) }
    ensures { result ≡ inside? (file_at n body.now) }
{
    if n.slaves == 0 {
        return false;
    }
    let low = lows(n, body);
    for i in 0..n.slaves {
        let s = layout::body::slave_at(n, body, i);
        let node = s.node as usize;
        if s.chart >= low[node] {
            return true;
        }
    }
    false
}
