// What stands in which slave: of each node the nearest enclosing slave.
#![tactic(auto)]

ghost use Rattle.std.specs.Prelude.{◌≡◌, ◌<◌, length};
ghost use Rattle.meaning.specs.File.{file_at};
ghost use Rattle.meaning.specs.Laws.Names.{enc};
ghost use Rattle.nesting.specs.Known.{Wirable};
ghost use Rattle.nesting.specs.Nearest.{master_by, state_by, Right, Enclosers, Seeds, Seeded, Hands};

use layout::body::Shape;
use layout::limits;
use layout::record::{Kind, Slave};

// The number of no slave and of no chart.
pub const NONE: u8 = 255;

// The node of each slave stands in that slave: `near` has of a node the number of its nearest enclosing slave.
fn seed(n: Shape, body: &[u8], near: &mut [u8])
    requires { Wirable n body.now × (length near.old ≡ 64) }
    ensures { Seeds (file_at n body.now) n.slaves near.old near.new }
{
    for i in 0..n.slaves {
        let slave = layout::body::slave_at(n, body, i);
        let j = slave.node as usize;
        near[j] = i as u8;
    }
}

// The nodes that node j names stand in the slave that j stands in.
fn hand(n: Shape, body: &[u8], j: usize, near: &mut [u8])
    requires { Wirable n body.now × (j < n.nodes) × (length near.old ≡ 64)
        × Right (file_at n body.now) near.old j }
    ensures { Hands (file_at n body.now) j near.old near.new }
{
    let node = layout::body::node_at(n, body, j);
    let i = near[j];
    let a = node.a as usize;
    let b = node.b as usize;
    match Kind::of(node.kind) {
        Kind::Holds => {}
        Kind::Composes => {
            near[a] = i;
            near[b] = i;
        }
        Kind::Hides => {
            near[a] = i;
        }
    }
}

// From the last node down, so that a node's slave is known before the node is come to.
fn hand_down(n: Shape, body: &[u8], near: &mut [u8])
    requires { Wirable n body.now × (length near.old ≡ 64) × Seeded (file_at n body.now) near.old }
    ensures { Enclosers (file_at n body.now) near.new }
{
    for j in (0..n.nodes).rev() {
        hand(n, body, j, near);
    }
}

// Of each node the number of its nearest enclosing slave, 255 for none.
pub fn enclosers(n: Shape, body: &[u8]) -> [u8; limits::NODES]
    requires { Wirable n body.now }
    ensures { Enclosers (file_at n body.now) result }
{
    let mut near = [NONE; limits::NODES];
    seed(n, body, &mut near);
    hand_down(n, body, &mut near);
    near
}

// The nearest enclosing slave of node j; of no chart if there is none.
pub fn enclosing(n: Shape, body: &[u8], j: usize, near: &[u8]) -> Slave
    requires { Wirable n body.now × (j < n.nodes) × (length near.now ≡ 64)
        × Right (file_at n body.now) near.now j }
    ensures { (result.chart ≡ master_by (file_at n body.now) (enc (file_at n body.now) j))
        × (result.state ≡ state_by (file_at n body.now) (enc (file_at n body.now) j)) }
{
    let i = near[j] as usize;
    if i < n.slaves {
        return layout::body::slave_at(n, body, i);
    }
    Slave {
        chart: NONE,
        state: 0,
        node: 0,
    }
}
