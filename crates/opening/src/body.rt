// 5 to 11, in order: what a file's body is refused for.
ghost use Rattle.std.specs.Prelude.{◌≡◌, false, ◌∷◌, ◌+◌, ◌≤◌, length};
ghost use Rattle.meaning.specs.File.{file_at};
ghost use Rattle.meaning.specs.Check.{first_of, body_tests, slaves?};
ghost use Rattle.checks.specs.Known.{Sized};
ghost use Rattle.checks.specs.Refusals.{told};
ghost use Rattle.opening.specs.Opening.{zero_test, node_tests};

use checks::refusal::Refusal;
use checks::{charts, zeros};
use layout::body::Shape;
use naming::{inside, names, nodes, slaves};

// 9 to 11.
fn test_nodes(n: Shape, body: &[u8]) -> Result<(), Refusal>
    requires { Sized n body.now × (slaves? (file_at n body.now) ≡ false) }
    ensures { told result ≡ first_of (node_tests n body.now) }
{
    if nodes::bad_nodes(n, body) {
        return Err(Refusal::BadNode);
    }
    if names::bad_naming(n, body) {
        return Err(Refusal::BadNaming);
    }
    if inside::bad_inside(n, body) {
        return Err(Refusal::BadInside);
    }
    Ok(())
}

// 6 to 11.
fn test_records(n: Shape, body: &[u8]) -> Result<(), Refusal>
    requires { Sized n body.now }
    ensures { told result ≡ first_of (body_tests n body.now) }
{
    if charts::bad_charts(n, body) {
        return Err(Refusal::BadChart);
    }
    if charts::bad_transitions(n, body) {
        return Err(Refusal::BadTransition);
    }
    if slaves::bad_slaves(n, body) {
        return Err(Refusal::BadSlave);
    }
    test_nodes(n, body)
}

// 5 to 11, of the body `body` of `file`, whose trailer stands at `end`.
pub fn test(file: &[u8], end: usize, n: Shape, body: &[u8]) -> Result<(), Refusal>
    requires { Sized n body.now × (end + 12 ≤ length file.now) }
    ensures { told result
        ≡ first_of (zero_test file.now end n body.now ∷ body_tests n body.now) }
{
    if zeros::nonzero(file, end + 10, 2) | zeros::bad_zeros(n, body) {
        return Err(Refusal::NotZero);
    }
    test_records(n, body)
}
