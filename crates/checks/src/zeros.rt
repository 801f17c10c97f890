// 5: zero bytes (RULES 3.2).
ghost use Rattle.std.specs.Prelude.{◌≡◌, ◌+◌, ◌*◌, ◌≤◌, length};
ghost use Rattle.layout.specs.Body.{Holds};
ghost use Rattle.meaning.specs.Sums.{any_up_to};
ghost use Rattle.meaning.specs.Check.{nonzero, zeros?};

use crate::limits::{HEAD_BYTES, NODE_BYTES, SLAVE_BYTES, TRANSITION_BYTES};
use layout::body::Shape;

// Whether one of the k bytes from `at` on is not zero. No byte ends the loop: k is small and known, so the bytes are
// joined and tested once.
pub fn nonzero(s: &[u8], at: usize, k: usize) -> bool
    requires { at + k ≤ length s.now }
    ensures { result ≡ nonzero s.now at k }
{
    let mut found = false;
    for i in 0..k {
        found = found | (s[at + i] != 0);
    }
    found
}

// Whether one of `count` records of `size` bytes, of which the first stands at `at`, is not zero in one of the k bytes
// from its byte `from` on.
fn any_nonzero(s: &[u8], at: usize, size: usize, count: usize, from: usize, k: usize) -> bool
    requires { (at + size * count ≤ length s.now) × (from + k ≤ size) }
    ensures { result ≡ any_up_to count (λ i. nonzero s.now (at + size * i + from) k) }
{
    let mut place = at;
    for i in 0..count {
        if nonzero(s, place + from, k) {
            return true;
        }
        place += size;
    }
    false
}

// 5, of the body's records.
pub fn bad_zeros(n: Shape, body: &[u8]) -> bool
    requires { Holds n body.now }
    ensures { result ≡ zeros? n body.now }
{
    let transitions = HEAD_BYTES * n.charts;
    let slaves = transitions + TRANSITION_BYTES * n.transitions;
    let nodes = slaves + SLAVE_BYTES * n.slaves;
    any_nonzero(body, 0, HEAD_BYTES, n.charts, 3, 5)
        | any_nonzero(body, transitions, TRANSITION_BYTES, n.transitions, 2, 2)
        | any_nonzero(body, slaves, SLAVE_BYTES, n.slaves, 3, 1)
        | any_nonzero(body, nodes, NODE_BYTES, n.nodes, 3, 1)
}
