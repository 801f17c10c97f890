// What triggers charts that may stay (specs/Triggers.antt).
ghost use Rattle.std.specs.Prelude.{◌≡◌, ◌+◌, ◌≤◌, ◌<◌, length};
ghost use Rattle.meaning.specs.Numbers.{most_charts, most_from_state};
ghost use Rattle.cells.specs.Triggers.{triggers_for, trigger_needed, trigger_barred, put_trigger};
ghost use Rattle.cells.specs.Triggers.{stays_size, told_at, some_stay};

use crate::{CANDIDATES, CHARTS};
use layout::record::Transition;

// The masks of one chart's triggers: what they need, and then what they bar.
const TRIGGERS: usize = 2 * CANDIDATES;

const BARS: usize = CANDIDATES;

// How many masks there are for all charts.
pub const SIZE: usize = TRIGGERS * CHARTS;

// What a search is told of charts that may stay: a number for each chart, and behind them 0 if none may.
pub const STAYS: usize = CHARTS + 1;

pub const SOME_STAY: usize = CHARTS;

// What trigger v of chart c needs, and what it bars.
pub fn needed(guards: &[u64], c: usize, v: usize) -> u64
    requires { (triggers_for (c + 1) ≤ length guards.now) × (c < most_charts) × (v < most_from_state) }
    ensures { result ≡ trigger_needed guards.now c v }
{
    guards[TRIGGERS * c + v]
}

pub fn barred(guards: &[u64], c: usize, v: usize) -> u64
    requires { (triggers_for (c + 1) ≤ length guards.now) × (c < most_charts) × (v < most_from_state) }
    ensures { result ≡ trigger_barred guards.now c v }
{
    guards[TRIGGERS * c + (BARS + v)]
}

pub fn put(guards: &mut [u64], c: usize, v: usize, t: Transition)
    requires { (triggers_for (c + 1) ≤ length guards.old) × (c < most_charts) × (v < most_from_state) }
    ensures { guards.new ≡ put_trigger guards.old c v t }
{
    guards[TRIGGERS * c + v] = t.needed;
    guards[TRIGGERS * c + (BARS + v)] = t.barred;
}

// What is told of chart c, and whether any may stay.
pub fn told(stays: &[u8], c: usize) -> usize
    requires { (length stays.now ≡ stays_size) × (c < most_charts) }
    ensures { result ≡ told_at stays.now c }
{
    crate::wide(stays[c])
}

pub fn some_stay(stays: &[u8]) -> u8
    requires { length stays.now ≡ stays_size }
    ensures { result ≡ some_stay stays.now }
{
    stays[SOME_STAY]
}
