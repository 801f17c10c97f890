// One chart settled after those before it: what they ask of its move, whether a move fits, and a move taken. The crate
// search tries all moves of all charts by these. It knows no file.
#![tactic(auto)]

ghost use Rattle.std.specs.Prelude.{◌≡◌, ◌&&◌, not, List, ℕ, ◌+◌, ◌≤◌, ◌<◌, length, get_or};
ghost use Rattle.signals.specs.Mask.{◌∪◌, ◌∩◌, within, apart};
ghost use Rattle.meaning.specs.Numbers.{most_charts, most_from_state, no_place, stay_place};
ghost use Rattle.meaning.specs.Calls.{made};
ghost use Rattle.cells.specs.Table.{masks_for, small_size, back_at};
ghost use Rattle.layout.specs.Row.{RowAt};
ghost use Rattle.cells.specs.Trail.{half, low_cell, trail_for, low_in, Room};
ghost use Rattle.settling.specs.Trail.{trail_in, Lowers};
ghost use Rattle.settling.specs.Hunt.{wakes, fine_at, taken, Takes, Idles};
ghost use Rattle.settling.specs.Asks.{Passes, Covers, asks_of};
ghost use Rattle.cells.specs.Triggers.{triggers_for, Guards};
ghost use Rattle.settling.specs.Calm.{trips, calm_at, calm_all};

use cells::{CHARTS, masks, moves, small, trail, triggers};
use signals::guard::Lack;

// The place of no transition, and of staying.
pub const NO_PLACE: u8 = 255;

pub const STAY_PLACE: u8 = 254;

// What was found so far: the first permitted choice's outcome, if there is one, and whether all others agree with it.
// Places do not count for that. The rows stand first: a copy by words of sixteen bytes then reads no two fields at
// once.
// `has` stands beside what is there and is no Option: theorems speak of it (Hunt.Laws, over_first and over_none).
#[derive(Clone, Copy)]
pub struct Found {
    pub next: [u8; CHARTS],
    pub places: [u8; CHARTS],
    pub output: u64,
    pub has: bool,
    pub agree: bool,
}

// Signals that have to be in a set, and signals that must not be in it.
#[derive(Clone, Copy)]
pub struct Guard {
    pub needed: u64,
    pub barred: u64,
}

// Whether chart k, the next to be settled, is active. A master's number from k on is none.
pub fn wakes(small: &[u8], moves: &[u8; moves::SIZE], k: usize) -> bool
    requires { (length small.now ≡ small_size) × (k < most_charts) }
    ensures { (m w : List ℕ) (o : ℕ)
        → result ≡ wakes m small.now (trail_in w moves.now k o) k }
{
    let master = small::master(small, k);
    if master < k {
        if moves::awake(moves, master) != 1 {
            return false;
        }
        let state = small::slave_state(small, k);
        let before = small::state(small, master);
        let after = moves::next(moves, master);
        if before == state {
            return true;
        }
        return after == state;
    }
    true
}

// Whether a guard holds, where what is surely offered is low and what may be offered is high.
pub fn holds(g: Guard, low: u64, high: u64) -> bool
    ensures { result ≡ (within g.needed high && apart g.barred low) }
{
    let Lack::Nothing = signals::guard::look(g.needed, g.barred, high, low) else {
        return false;
    };
    true
}

// What the charts below k ask of chart k's action: what only it can put in for them, and what it must not.
pub fn asks(masks: &[u64], trail: &[u64], k: usize) -> Guard
    requires { (masks_for (k + 1) ≤ length masks.now) × (k < most_charts) × (trail_for k ≤ length trail.now) }
    ensures { result ≡ asks_of masks.now trail.now k }
{
    let mut needed: u64 = 0;
    let mut barred: u64 = 0;
    for d in 0..k {
        let high = trail::low(trail, k, d) | masks::ahead(masks, k + 1, d);
        needed = needed | signals::less(trail::needed(trail, d), high);
        barred = barred | trail::barred(trail, d) & masks::back(masks, d, k);
    }
    Guard { needed, barred }
}

// Whether chart k may take its candidate v: its own guard and what the charts before it ask of its action can still be
// met.
pub fn fits(masks: &[u64], trail: &[u64], asked: Guard, k: usize, v: usize) -> bool
    requires { (masks_for (k + 1) ≤ length masks.now) × (k < most_charts) × (v < most_from_state)
        × (asked ≡ asks_of masks.now trail.now k) × (trail_for k ≤ length trail.now)
        × Passes masks.now trail.now k × Covers masks.now k }
    ensures { (s b : List ℕ) (o : ℕ) →
        result ≡ fine_at masks.now s (taken masks.now s (trail_in trail.now b k o) k v) k }
{
    let action = masks::action(masks, k, v);
    if !holds(asked, action, action) {
        return false;
    }
    let own = Guard {
        needed: masks::needed(masks, k, v),
        barred: masks::barred(masks, k, v),
    };
    let low = trail::low(trail, k, k) | action & masks::back(masks, k, k);
    holds(own, low, low | masks::ahead(masks, k + 1, k))
}

// What the charts of a half are surely offered, from chart `from` on, once chart k has this action. It is a row of its
// own, so that its masks are computed side by side.
fn lowered(masks: &[u64], trail: &[u64], action: u64, k: usize, from: usize) -> [u64; cells::HALF]
    requires { (masks_for (k + 1) ≤ length masks.now) × (k < most_charts) × (trail_for k ≤ length trail.now)
        × (from + half ≤ most_charts) }
    ensures { result ≡ made half
        (λ c. low_in trail.now k (from + c) ∪ action ∩ back_at masks.now (from + c) k) }
{
    let mut row = [0u64; cells::HALF];
    for c in 0..cells::HALF {
        row[c] = trail::low(trail, k, from + c) | action & masks::back(masks, from + c, k);
    }
    row
}

// Puts what charts are surely offered before chart k is settled, from chart `from` on.
pub fn put_row(trail: &mut [u64], row: &[u64], k: usize, from: usize)
    requires { (trail_for k ≤ length trail.old) × (k ≤ most_charts) × (from + length row.now ≤ most_charts) }
    ensures { RowAt (low_cell k from) (length row.now) (λ c. get_or row.now c 0)
        trail.old trail.new }
{
    for c in 0..row.len() {
        trail::put_low(trail, k, from + c, row[c]);
    }
}

// Chart k has this action: what that puts in for the charts of a half.
fn lower_half(masks: &[u64], trail: &mut [u64], action: u64, k: usize, from: usize)
    requires { (masks_for (k + 1) ≤ length masks.now) × (trail_for (k + 1) ≤ length trail.old)
        × (k < most_charts) × (from + half ≤ most_charts) }
    ensures { RowAt (low_cell (k + 1) from) half
        (λ c. low_in trail.old k (from + c) ∪ action ∩ back_at masks.now (from + c) k)
        trail.old trail.new }
{
    let row = lowered(masks, trail, action, k, from);
    put_row(trail, &row, k + 1, from);
}

// The same of all charts. Where there are few, the second half has none.
fn lower(masks: &[u64], trail: &mut [u64], action: u64, charts: usize, k: usize)
    requires { (masks_for (k + 1) ≤ length masks.now) × (trail_for (k + 1) ≤ length trail.old)
        × (k < most_charts) × (charts ≤ most_charts) }
    ensures { Lowers masks.now action charts k trail.old trail.new }
{
    lower_half(masks, trail, action, k, 0);
    if charts <= cells::HALF {
        return;
    }
    lower_half(masks, trail, action, k, cells::HALF);
}

// Chart k takes its candidate v.
pub fn take(
    masks: &[u64],
    small: &[u8],
    trail: &mut [u64],
    moves: &mut [u8; moves::SIZE],
    charts: usize,
    k: usize,
    v: usize,
)
    requires { (masks_for (k + 1) ≤ length masks.now) × (length small.now ≡ small_size)
        × Room (k + 1) trail.old moves.old × (k < most_charts) × (v < most_from_state) × (charts ≤ most_charts) }
    ensures { Takes masks.now small.now charts k v trail.old
        moves.old trail.new moves.new }
{
    let needed = masks::needed(masks, k, v);
    let barred = masks::barred(masks, k, v);
    trail::put_asked(trail, k, needed, barred);
    let next = small::to(small, k, v);
    let place = small::place(small, k, v);
    moves::put(moves, k, next, 1, place);
    let action = masks::action(masks, k, v);
    lower(masks, trail, action, charts, k);
}

// Chart k takes no transition and keeps its state; 1 if it is active, and what stands for its place.
fn idle(
    masks: &[u64],
    small: &[u8],
    trail: &mut [u64],
    moves: &mut [u8; moves::SIZE],
    charts: usize,
    k: usize,
    active: u8,
    place: u8,
)
    requires { (masks_for (k + 1) ≤ length masks.now) × (length small.now ≡ small_size)
        × Room (k + 1) trail.old moves.old × (k < most_charts) × (charts ≤ most_charts) }
    ensures { Idles active place small.now charts k trail.old moves.old
        trail.new moves.new }
{
    trail::put_asked(trail, k, 0, 0);
    let next = small::state(small, k);
    moves::put(moves, k, next, active, place);
    lower(masks, trail, 0, charts, k);
}

// Chart k is inactive.
pub fn rest(
    masks: &[u64],
    small: &[u8],
    trail: &mut [u64],
    moves: &mut [u8; moves::SIZE],
    charts: usize,
    k: usize,
)
    requires { (masks_for (k + 1) ≤ length masks.now) × (length small.now ≡ small_size)
        × Room (k + 1) trail.old moves.old × (k < most_charts) × (charts ≤ most_charts) }
    ensures { Idles 0 no_place small.now charts k trail.old moves.old
        trail.new moves.new }
{
    idle(masks, small, trail, moves, charts, k, 0, NO_PLACE);
}

// Chart k stays: it is active.
pub fn stay(
    masks: &[u64],
    small: &[u8],
    trail: &mut [u64],
    moves: &mut [u8; moves::SIZE],
    charts: usize,
    k: usize,
)
    requires { (masks_for (k + 1) ≤ length masks.now) × (length small.now ≡ small_size)
        × Room (k + 1) trail.old moves.old × (k < most_charts) × (charts ≤ most_charts) }
    ensures { Idles 1 stay_place small.now charts k trail.old moves.old
        trail.new moves.new }
{
    idle(masks, small, trail, moves, charts, k, 1, STAY_PLACE);
}

// Whether one of the first n triggers of chart d holds, where what the chart is surely offered is low and what it may
// be offered is high.
pub fn trips(guards: &[u64], d: usize, n: usize, low: u64, high: u64) -> bool
    requires { (triggers_for (d + 1) ≤ length guards.now) × (d < most_charts) × (n ≤ most_from_state) }
    ensures { result ≡ trips guards.now d n low high }
{
    for v in 0..n {
        let trigger = Guard {
            needed: triggers::needed(guards, d, v),
            barred: triggers::barred(guards, d, v),
        };
        if holds(trigger, high, low) {
            return true;
        }
    }
    false
}

// Whether chart d, if it stays, is not surely triggered, where the charts below k are settled.
fn calm(
    masks: &[u64],
    guards: &[u64],
    stays: &[u8],
    trail: &[u64],
    moves: &[u8; moves::SIZE],
    k: usize,
    d: usize,
) -> bool
    requires { (masks_for k ≤ length masks.now) × Guards guards.now stays.now × (k ≤ most_charts) × (d < k)
        × (trail_for k ≤ length trail.now) }
    ensures { (s : List ℕ) (o : ℕ) →
        result ≡ calm_at masks.now s guards.now stays.now
        (trail_in trail.now moves.now k o) k d }
{
    if moves::place(moves, d) != STAY_PLACE {
        return true;
    }
    let n = triggers::told(stays, d);
    if n == 0 {
        return true;
    }
    let low = trail::low(trail, k, d);
    let high = low | masks::ahead(masks, k, d);
    !trips(guards, d, n - 1, low, high)
}

// The same of all charts below k. Where no chart may stay, none is looked for.
pub fn all_calm(
    masks: &[u64],
    guards: &[u64],
    stays: &[u8],
    trail: &[u64],
    moves: &[u8; moves::SIZE],
    k: usize,
) -> bool
    requires { (masks_for k ≤ length masks.now) × Guards guards.now stays.now × (k ≤ most_charts)
        × (trail_for k ≤ length trail.now) }
    ensures { (s : List ℕ) (o : ℕ) →
        result ≡ calm_all masks.now s guards.now stays.now
        (trail_in trail.now moves.now k o) k }
{
    if triggers::some_stay(stays) == 0 {
        return true;
    }
    for d in 0..k {
        if !calm(masks, guards, stays, trail, moves, k, d) {
            return false;
        }
    }
    true
}
