// The calls that read a file alone: its check, the states of its charts, the first configuration, and whether it is
// plain.
ghost use Rattle.std.specs.Prelude.{◌≡◌, ℕ, ◌≤◌, length};
ghost use Rattle.layout.specs.Body.{Holds, head_at};
ghost use Rattle.meaning.specs.Calls.{made, laid_over};
ghost use Rattle.layout.specs.declared.record.Head.{Head};
ghost use Rattle.queries.specs.Promises.{CheckSays, FirstSays, StatesSays, PlainSays};

use checks::limits;
use checks::refusal::Refusal;
use layout::body::Shape;
use layout::record::Head;

// Whether the file is in order: if not, the first refusal that applies.
pub fn check(file: &[u8]) -> Result<(), Refusal>
    ensures { CheckSays file.now result }
{
    opening::opened(file)?;
    Ok(())
}

// What a configuration is compared with (RULES 3.3): how many charts a file has, and how many states each of them has;
// 0 past the last chart.
#[derive(Clone, Copy)]
pub struct StateCounts {
    pub charts: u8,
    pub states: [u8; layout::limits::CHARTS],
}

// A byte of each chart's head, over the front of `out`.
fn put_bytes<F: Fn(Head) -> u8>(n: Shape, body: &[u8], out: &mut [u8], of: F)
    ghost byte: { Head → ℕ }
    requires callable { F.IsAlwaysCallable of }
    requires is { (h : Head) (r : ℕ) → F.post of h r → r ≡ byte h }
    requires room { Holds n body.now × (n.charts ≤ length out.old) }
    ensures { out.new ≡ laid_over (made n.charts (λ c. byte (head_at n body.now c))) out.old }
{
    for c in 0..n.charts {
        out[c] = of(layout::body::head_at(n, body, c));
    }
}

// Each chart's number of states, over the front of `states`.
fn put_counts(n: Shape, body: &[u8], states: &mut [u8])
    requires { Holds n body.now × (n.charts ≤ length states.old) }
    ensures { states.new
        ≡ laid_over (made n.charts (λ c. (head_at n body.now c).states)) states.old }
{
    put_bytes(n, body, states, |h| h.states);
}

// The states of each chart: a caller with many configurations of one file tests 20 and 21 by them, and opens the file
// once.
pub fn states(file: &[u8]) -> Result<StateCounts, Refusal>
    ensures { StatesSays file.now result }
{
    let o = opening::opened(file)?;
    let charts = o.shape.charts as u8;
    let mut states = [0u8; layout::limits::CHARTS];
    put_counts(o.shape, o.body, &mut states);
    Ok(StateCounts { charts, states })
}

// Each chart's initial state, over the front of `config`.
pub fn put_initials(n: Shape, body: &[u8], config: &mut [u8])
    requires { Holds n body.now × (n.charts ≤ length config.old) }
    ensures { config.new
        ≡ laid_over (made n.charts (λ c. (head_at n body.now c).initial)) config.old }
{
    put_bytes(n, body, config, |h| h.initial);
}

// The first configuration, one byte for each chart.
pub fn first(file: &[u8], config: &mut [u8]) -> Result<(), Refusal>
    ensures { FirstSays file.now config.old result config.new }
{
    let o = opening::opened(file)?;
    if config.len() < o.shape.charts {
        return Err(Refusal::ShortBuffer);
    }
    put_initials(o.shape, o.body, config);
    Ok(())
}

// Whether a file is plain, so that no step of it can be marked no (RULES 8). One whose charts may stay is not.
pub fn plain(file: &[u8]) -> Result<bool, Refusal>
    ensures { PlainSays file.now result }
{
    let opened = opening::opened(file)?;
    if opened.shape.edition != limits::FIRST_EDITION as usize {
        return Ok(false);
    }
    Ok(plain::is_plain(opened.shape, opened.body))
}
