// Records written where there is room for them; where there is none, nothing is written.
ghost use Rattle.layout.specs.Record.{head_bytes, transition_bytes, slave_bytes, node_bytes};
ghost use Rattle.laying.specs.Room.{Tries};

use checks::limits;
use layout::record::{Head, Node, Slave, Transition};

pub fn put_head(out: &mut [u8], at: usize, r: Head) -> usize
    ensures { Tries out.old at (head_bytes r) out.new result }
{
    if out.len() < limits::HEAD_BYTES {
        return at;
    }
    if out.len() - limits::HEAD_BYTES < at {
        return at;
    }
    crate::put_head(out, at, r)
}

pub fn put_transition(out: &mut [u8], at: usize, r: Transition) -> usize
    ensures { Tries out.old at (transition_bytes r) out.new result }
{
    if out.len() < limits::TRANSITION_BYTES {
        return at;
    }
    if out.len() - limits::TRANSITION_BYTES < at {
        return at;
    }
    crate::put_transition(out, at, r)
}

pub fn put_slave(out: &mut [u8], at: usize, r: Slave) -> usize
    ensures { Tries out.old at (slave_bytes r) out.new result }
{
    if out.len() < limits::SLAVE_BYTES {
        return at;
    }
    if out.len() - limits::SLAVE_BYTES < at {
        return at;
    }
    crate::put_slave(out, at, r)
}

pub fn put_node(out: &mut [u8], at: usize, r: Node) -> usize
    ensures { Tries out.old at (node_bytes r) out.new result }
{
    if out.len() < limits::NODE_BYTES {
        return at;
    }
    if out.len() - limits::NODE_BYTES < at {
        return at;
    }
    crate::put_node(out, at, r)
}
