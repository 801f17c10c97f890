// What is read of each chart's action: what comes out of the whole, and what gets to a chart that looks for it.
#![tactic(auto)]

ghost use Rattle.std.specs.Prelude.{◌≡◌, ◌+◌, ◌≤◌, ◌<◌, length, get_or, drop};
ghost use Rattle.layout.specs.Record.{transition_of};
ghost use Rattle.layout.specs.Body.{Holds, transition_at};
ghost use Rattle.layout.specs.Body.{from as fromOn};
ghost use Rattle.meaning.specs.Meaning.{same};
ghost use Rattle.meaning.specs.Numbers.{most_charts};
ghost use Rattle.signals.specs.Mask.{◌∪◌};
ghost use Rattle.meaning.specs.Laws.Bools.{every};
ghost use Rattle.wiring.specs.Reach.{full};
ghost use Rattle.cells.specs.Table.{masks_for, up_at};
ghost use Rattle.tables.specs.Narrowing.{asked, read_at};
ghost use Rattle.candidates.specs.Candidates.{Ready};
ghost use Rattle.relevance.specs.Relevance.{asked_by, Asks, ReadRow};

use cells::{CHARTS, masks};
use layout::body::Shape;
use layout::limits::{HEAD_BYTES, TRANSITION_BYTES};

// The signals u, and those of the guard of the transition whose first byte stands at `at`, if it is from the state.
fn asked_with(body: &[u8], at: usize, state: u8, u: u64) -> u64
    requires { at + 28 ≤ length body.now }
    ensures { result ≡ u ∪ asked_by state (transition_of (drop at body.now)) }
{
    if body[at] == state {
        let r = layout::record::read_transition(body, at);
        return u | (r.needed | r.barred);
    }
    u
}

// What a chart in a state looks for, by its `count` transitions from `start` on.
fn asked_of(n: Shape, body: &[u8], start: usize, count: usize, state: u8) -> u64
    requires { Holds n body.now × (start + count ≤ n.transitions) }
    ensures { result ≡ asked (fromOn (transition_at n body.now) start count) state }
{
    let mut u: u64 = 0;
    let mut at = HEAD_BYTES * n.charts + TRANSITION_BYTES * start;
    for p in 0..count {
        u = asked_with(body, at, state, u);
        at += TRANSITION_BYTES;
    }
    u
}

// What each chart looks for in its present state.
fn asked_all(n: Shape, body: &[u8], config: &[u8]) -> [u64; CHARTS]
    requires { Ready n body.now config.now }
    ensures { Asks n body.now config.now n.charts result }
{
    let mut asks = [0u64; CHARTS];
    let mut start: usize = 0;
    for c in 0..n.charts {
        let head = layout::body::head_at(n, body, c);
        let count = head.transitions as usize;
        asks[c] = asked_of(n, body, start, count, config[c]);
        start += count;
    }
    asks
}

// What of chart k's action comes out of the whole, or gets to a chart that looks for it.
fn read_of(masks: &[u64], charts: usize, asks: &[u64; CHARTS], k: usize) -> u64
    requires { (masks_for charts ≤ length masks.now) × (charts ≤ most_charts) × (k < charts) }
    ensures { result ≡ read_at masks.now charts (λ c. get_or asks.now c 0) k }
{
    let mut u: u64 = 0;
    for c in 0..charts {
        u = u | masks::back(masks, c, k) & asks[c];
    }
    masks::up(masks, k) | u
}

// Whether all that charts put out comes out of the whole: then all of it is read. In a file that hides nothing it does.
pub fn all_out(masks: &[u64], charts: usize) -> bool
    requires { (masks_for charts ≤ length masks.now) × (charts ≤ most_charts) }
    ensures { result ≡ every charts (λ c. same (up_at masks.now c) full) }
{
    for c in 0..charts {
        if masks::up(masks, c) != signals::ALL {
            return false;
        }
    }
    true
}

// What is read of each chart's action from a configuration, by tables that have the wiring.
pub fn rows(n: Shape, body: &[u8], config: &[u8], masks: &[u64]) -> [u64; CHARTS]
    requires { Ready n body.now config.now × (masks_for n.charts ≤ length masks.now) }
    ensures { ReadRow n body.now config.now masks.now n.charts result }
{
    let asks = asked_all(n, body, config);
    let mut reads = [0u64; CHARTS];
    for k in 0..n.charts {
        reads[k] = read_of(masks, n.charts, &asks, k);
    }
    reads
}
