// Records laid down one behind another, for the calls that write a file. Each function writes at a place, and gives the
// place behind what it wrote.
#![tactic(auto)]

ghost use Rattle.std.specs.Prelude.{◌≡◌, ◌+◌, ◌≤◌, length};
ghost use Rattle.std.proofs.lemmas.List.Edits.{sets};
ghost use Rattle.layout.specs.Record.{head_bytes, transition_bytes, slave_bytes, node_bytes, trailer_bytes};
ghost use Rattle.layout.specs.Put.{Put};
ghost use Rattle.laying.specs.Trailer.{Small, trailer_with};

use checks::limits;
use layout::body::Shape;
use layout::record::{Head, Node, Slave, Trailer, Transition};

pub mod room;

pub fn put_head(out: &mut [u8], at: usize, r: Head) -> usize
    requires { at + 24 ≤ length out.old }
    ensures { Put out.old at (head_bytes r) out.new result }
{
    layout::record::write_head(out, at, r);
    at + limits::HEAD_BYTES
}

pub fn put_transition(out: &mut [u8], at: usize, r: Transition) -> usize
    requires { at + 28 ≤ length out.old }
    ensures { Put out.old at (transition_bytes r) out.new result }
{
    layout::record::write_transition(out, at, r);
    at + limits::TRANSITION_BYTES
}

pub fn put_slave(out: &mut [u8], at: usize, r: Slave) -> usize
    requires { at + 4 ≤ length out.old }
    ensures { Put out.old at (slave_bytes r) out.new result }
{
    layout::record::write_slave(out, at, r);
    at + limits::SLAVE_BYTES
}

pub fn put_node(out: &mut [u8], at: usize, r: Node) -> usize
    requires { at + 20 ≤ length out.old }
    ensures { Put out.old at (node_bytes r) out.new result }
{
    layout::record::write_node(out, at, r);
    at + limits::NODE_BYTES
}

// The trailer of a body of the shape m, right behind it.
pub fn trailer(m: Shape, edition: u8, out: &mut [u8], at: usize)
    requires { Small m × (at + 12 ≤ length out.old) }
    ensures { out.new ≡ sets out.old at (trailer_bytes (trailer_with m edition)) }
{
    let t = Trailer {
        distance: layout::body::size(m) as u32,
        charts: m.charts as u8,
        slaves: m.slaves as u8,
        nodes: m.nodes as u8,
        edition: edition,
        transitions: m.transitions as u16,
    };
    layout::record::write_trailer(out, at, t);
}
