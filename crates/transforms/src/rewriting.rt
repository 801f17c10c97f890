// The rewriting (RULES 9): a file with slaves becomes a file without, over the front of the caller's buffer.
ghost use Rattle.std.specs.Prelude.{◌≡◌, length};
ghost use Rattle.meaning.specs.File.{file_at};
ghost use Rattle.meaning.specs.Check.{first_of};
ghost use Rattle.meaning.specs.Rewriting.{rewrite, shape_in};
ghost use Rattle.checks.specs.Refusals.{told};
ghost use Rattle.allocation.specs.Known.{Checked, InnerIn, Upward};
ghost use Rattle.transforms.specs.Promises.{RewritingSays};
ghost use Rattle.transforms.specs.Rewriting.{limit_tests, BodyRewrites};

use checks::limits;
use checks::refusal::Refusal;
use layout::body::Shape;
use layout::limits::CHARTS;

// 41 to 44: a state or a chart would have too many transitions, or there would be too many nodes. The result has the
// shape m.
fn test_limits(n: Shape, body: &[u8], inner: &[u64; CHARTS], m: Shape) -> Result<(), Refusal>
    requires { Checked n body.now × InnerIn (file_at n body.now) inner.now
        × (m ≡ shape_in (rewrite (file_at n body.now))) }
    ensures { told result ≡ first_of (limit_tests (file_at n body.now)) }
{
    if growth::over_from(n, body, inner, limits::MOST_FROM_STATE as usize) {
        return Err(Refusal::ManyFromState);
    }
    if growth::over_in_chart(n, body, inner, limits::MOST_IN_CHART as usize) {
        return Err(Refusal::ManyInChart);
    }
    if m.nodes > limits::MOST_NODES as usize {
        return Err(Refusal::ManyNodes);
    }
    Ok(())
}

// The rewriting of a body that passed 1 to 11.
fn of_body(n: Shape, body: &[u8], out: &mut [u8]) -> Result<usize, Refusal>
    requires { Checked n body.now × Upward (file_at n body.now) }
    ensures { BodyRewrites (file_at n body.now) out.old result out.new }
{
    let Some(calls) = allocation::given(n.slaves, allocation::used(n, body)) else {
        return Err(Refusal::NoFreeSignal);
    };
    let inner = allocation::inner(n, body, &calls);
    let m = growth::shape(n, body, &inner);
    test_limits(n, body, &inner, m)?;
    let size = layout::body::size(m) + limits::TRAILER_BYTES;
    if out.len() < size {
        return Err(Refusal::ShortOut);
    }
    assembly::lay(n, body, &calls, &inner, m, limits::FIRST_EDITION, out);
    Ok(size)
}

// The file without slaves that steps as the file does, over the front of `out`, and its length.
pub fn rewriting(file: &[u8], out: &mut [u8]) -> Result<usize, Refusal>
    ensures { RewritingSays file.now out.old result out.new }
{
    let o = opening::opened(file)?;
    if o.shape.edition == limits::STAY_EDITION as usize {
        return Err(Refusal::MayStay);
    }
    of_body(o.shape, o.body, out)
}
