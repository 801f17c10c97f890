// The body of a chart file: where its records stand, by the four counts, and each record by its number.
ghost use Rattle.std.specs.Prelude.{◌≡◌, ◌+◌, ◌*◌, ◌≤◌, ◌<◌};
ghost use Rattle.layout.specs.Body.{Holds, size_of, head_at, start_of, transition_at, slave_at, node_at};

use crate::limits::{HEAD_BYTES, NODE_BYTES, SLAVE_BYTES, TRANSITION_BYTES};
use crate::record::{Head, Node, Slave, Transition};

// How many records of each kind a body has, and the edition by which it is read.
#[derive(Clone, Copy)]
pub struct Shape {
    pub charts: usize,
    pub transitions: usize,
    pub slaves: usize,
    pub nodes: usize,
    pub edition: usize,
}

// The body size that follows from the counts (RULES 2.1).
pub fn size(n: Shape) -> usize
    requires { (n.charts < 256) × (n.transitions < 65536) × (n.slaves < 256) × (n.nodes < 256) }
    ensures { result ≡ size_of n }
{
    HEAD_BYTES * n.charts
        + TRANSITION_BYTES * n.transitions
        + SLAVE_BYTES * n.slaves
        + NODE_BYTES * n.nodes
}

pub fn head_at(n: Shape, body: &[u8], c: usize) -> Head
    requires { Holds n body.now × (c < n.charts) }
    ensures { result ≡ head_at n body.now c }
{
    crate::record::read_head(body, HEAD_BYTES * c)
}

// Where the transitions of chart c begin, counted through all charts.
pub fn start_of(n: Shape, body: &[u8], c: usize) -> usize
    requires { Holds n body.now × (c ≤ n.charts) × (c < 256) }
    ensures { result ≡ start_of n body.now c }
{
    let mut start: usize = 0;
    for k in 0..c {
        let head = head_at(n, body, k);
        start += head.transitions as usize;
    }
    start
}

// Transition t, counted through all charts.
pub fn transition_at(n: Shape, body: &[u8], t: usize) -> Transition
    requires { Holds n body.now × (t < n.transitions) }
    ensures { result ≡ transition_at n body.now t }
{
    crate::record::read_transition(body, HEAD_BYTES * n.charts + TRANSITION_BYTES * t)
}

pub fn slave_at(n: Shape, body: &[u8], i: usize) -> Slave
    requires { Holds n body.now × (i < n.slaves) }
    ensures { result ≡ slave_at n body.now i }
{
    crate::record::read_slave(
        body,
        HEAD_BYTES * n.charts + TRANSITION_BYTES * n.transitions + SLAVE_BYTES * i,
    )
}

pub fn node_at(n: Shape, body: &[u8], j: usize) -> Node
    requires { Holds n body.now × (j < n.nodes) }
    ensures { result ≡ node_at n body.now j }
{
    crate::record::read_node(
        body,
        HEAD_BYTES * n.charts
            + TRANSITION_BYTES * n.transitions
            + SLAVE_BYTES * n.slaves
            + NODE_BYTES * j,
    )
}
