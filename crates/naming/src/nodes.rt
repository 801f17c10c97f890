// Refusal 9: nodes name what is there and lower, and what they do not use is zero.
ghost use Rattle.std.specs.Prelude.{◌≡◌, ◌<◌};
ghost use Rattle.layout.specs.Body.{node_at};
ghost use Rattle.meaning.specs.File.{file_at};
ghost use Rattle.meaning.specs.Check.{node_of_kind?, nodes?};
ghost use Rattle.checks.specs.Known.{Sized};

use layout::body::Shape;
use layout::record::Kind;

fn bad_node(n: Shape, body: &[u8], j: usize) -> bool
    requires { Sized n body.now × (j < n.nodes) }
    ensures { result ≡ node_of_kind? (file_at n body.now) (node_at n body.now j).kind j }
{
    let r = layout::body::node_at(n, body, j);
    let a = r.a as usize;
    let b = r.b as usize;
    match Kind::try_from(r.kind) {
        Ok(Kind::Holds) => !(a < n.charts) | (b != 0) | (r.x != 0) | (r.y != 0),
        Ok(Kind::Composes) => !(a < j) | !(b < j) | (r.y != 0),
        Ok(Kind::Hides) => !(a < j) | (b != 0),
        Err(_) => true,
    }
}

pub fn bad_nodes(n: Shape, body: &[u8]) -> bool
    requires { Sized n body.now }
    ensures { result ≡ nodes? (file_at n body.now) }
{
    for j in 0..n.nodes {
        if bad_node(n, body, j) {
            return true;
        }
    }
    false
}
