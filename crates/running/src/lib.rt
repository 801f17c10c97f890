// A run of a body that passed 1 to 11 (RULES 6): it is wired once, then a row is made for each input.
#![tactic(auto)]

ghost use Rattle.std.specs.Prelude.{◌≡◌, ◌∷◌, ◌++◌, ℕ, ◌+◌, ◌*◌, ◌≤◌, ◌<◌, length, take};
ghost use Rattle.layout.specs.Le.{bytes};
ghost use Rattle.meaning.specs.Numbers.{most_charts};
ghost use Rattle.meaning.specs.Sums.{one};
ghost use Rattle.meaning.specs.File.{file_at};
ghost use Rattle.meaning.specs.Calls.{laid_over, after_step, carried_after, row_of, rows_of, carried_of};
ghost use Rattle.meaning.proofs.Laws.Runs.{Valid};
ghost use Rattle.stepping.specs.Step.{Checked, Prepared, tried_answer};
ghost use Rattle.running.specs.Run.{BodyRuns};

use cells::{CHARTS, masks, small};
use checks::limits;
use checks::refusal::Refusal;
use layout::body::Shape;
use layout::row::{MARK, REFUSAL, STATES};
use stepping::step::Tried;

// A mark as a number.
fn mark(yes: bool) -> u8
    ensures { result ≡ one yes }
{
    u8::from(yes)
}

// A whole row: what a step gave, and the states after it.
fn put_fields(
    row: &mut [u8],
    output: u64,
    mark: u8,
    refusal: u8,
    states: [u8; CHARTS],
    charts: usize,
)
    requires { (charts ≤ most_charts) × (length row.old ≡ 10 + charts) }
    ensures { row.new ≡ bytes 8 output ++ (mark ∷ refusal ∷ take charts states) }
{
    layout::number::put64(row, 0, output);
    row[MARK] = mark;
    row[REFUSAL] = refusal;
    stepping::step::put_states(&mut row[STATES..], states, charts);
}

// The row of a step from a configuration.
fn put_row(row: &mut [u8], t: Tried, states: [u8; CHARTS], charts: usize)
    requires { (charts ≤ most_charts) × (length row.old ≡ 10 + charts) }
    ensures { row.new ≡ row_of (tried_answer charts t) (take charts states) }
{
    match t.choice() {
        Ok(f) => {
            let next = f.next;
            put_fields(row, f.output, mark(f.agree), limits::ACCEPTED, next, charts);
        }
        Err(e) => put_fields(row, 0, 0, e.refusal.number(), states, charts),
    }
}

// Where a run stands: the present states, and what is carried.
#[derive(Clone, Copy)]
struct Stand {
    states: [u8; CHARTS],
    carried: u64,
}

// Where it stands after a step that was offered a set. A refused one keeps the states, and what it was offered is
// carried; the run goes on.
fn after(t: Tried, states: [u8; CHARTS], offered: u64) -> Stand
    ensures { (n : ℕ) → (take n result.states ≡ after_step (tried_answer n t) (take n states))
        × (result.carried ≡ carried_after (tried_answer n t) offered) }
{
    let Ok(f) = t.choice() else {
        return Stand {
            states,
            carried: offered,
        };
    };
    let next = f.next;
    Stand {
        states: next,
        carried: 0,
    }
}

// The rows of all inputs, from the first states and what is carried there on. Returns what is carried after the last.
fn put_rows(
    n: Shape,
    body: &[u8],
    start: [u8; CHARTS],
    carried: u64,
    inputs: &[u64],
    down: [u64; CHARTS],
    masks: &mut [u64],
    small: &mut [u8],
    rows: &mut [u8],
) -> u64
    requires { Checked n body.now × Valid (file_at n body.now) (take n.charts start) × Prepared n
        body.now down masks.old small.old × (length inputs.now * (10 + n.charts) ≤ length rows.old) }
    ensures { (rows.new ≡ laid_over (rows_of (file_at n body.now)
        (take n.charts start) carried inputs.now) rows.old)
        × (result ≡ carried_of (file_at n body.now) (take n.charts start) carried inputs.now) }
{
    let charts = n.charts;
    let w = STATES + charts;
    let mut states = start;
    let mut held = carried;
    let mut at: usize = 0;
    for input in inputs {
        let offered = held | *input;
        let t = stepping::step::try_wired(n, body, &states[..charts], offered, down, masks, small);
        let e = at + w;
        put_row(&mut rows[at..e], t, states, charts);
        let p = after(t, states, offered);
        states = p.states;
        held = p.carried;
        at = e;
    }
    held
}

// A configuration at the front of an array.
fn states_of(config: &[u8]) -> [u8; CHARTS]
    requires { length config.now ≤ most_charts }
    ensures { take (length config.now) result ≡ config.now }
{
    let mut states = [0u8; CHARTS];
    states[..config.len()].copy_from_slice(config);
    states
}

// A run from a configuration, with what is carried there, after 20, 21 and 27: the rows go to the front of `rows`.
pub fn of_body(
    n: Shape,
    body: &[u8],
    config: &[u8],
    carried: u64,
    inputs: &[u64],
    rows: &mut [u8],
) -> Result<u64, Refusal>
    requires { Checked n body.now }
    ensures { BodyRuns (file_at n body.now) config.now carried inputs.now
        rows.old result rows.new }
{
    stepping::step::test_config(n, body, config)?;
    if rows.len() / (STATES + n.charts) < inputs.len() {
        return Err(Refusal::ShortRun);
    }
    let start = states_of(config);
    let mut masks = [0u64; masks::SIZE];
    let mut small = [0u8; small::SIZE];
    let down = plan::wired(n, body, &mut masks, &mut small);
    Ok(put_rows(
        n, body, start, carried, inputs, down, &mut masks, &mut small, rows,
    ))
}
