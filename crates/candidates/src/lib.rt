// The candidates of a step: for each chart the transitions that it may take now, and what later charts may put out. How
// the tables are laid out is in the crate cells (Table); that a search over them answers the step is in the crate
// tables.
#![tactic(auto)]

ghost use Rattle.std.specs.Prelude.{◌≡◌, cond, List, ℕ, ◌+◌, ◌*◌, ◌≤◌, ◌<◌, length, get_or, drop};
ghost use Rattle.layout.specs.Record.{transition_of};
ghost use Rattle.layout.specs.Body.{Holds, transition_at, start_of};
ghost use Rattle.layout.specs.Body.{from as fromOn};
ghost use Rattle.meaning.specs.Sums.{tally, one};
ghost use Rattle.meaning.specs.Meaning.{same};
ghost use Rattle.signals.specs.Mask.{◌∪◌, ◌∩◌, bit};
ghost use Rattle.cells.specs.Triggers.{triggers, stays_size};
ghost use Rattle.wiring.specs.Sure.{sure_of, sure_in};
ghost use Rattle.meaning.specs.Numbers.{most_charts, most_from_state, stay_edition};
ghost use Rattle.wiring.specs.Pruning.{may_of};
ghost use Rattle.cells.specs.Table.{masks_for, back_at, put_masks, Row, small_size, count_at, put_small};
ghost use Rattle.tables.specs.Contents.{may_at};
ghost use Rattle.tables.specs.Narrowing.{narrow};
ghost use Rattle.tables.specs.Insertion.{lasts_by, others_at, sure_at, is_at, is_again, AheadRow, ahead_by, AheadFrom};
ghost use Rattle.tables.specs.Insertion.{stuck};
ghost use Rattle.candidates.specs.Candidates.{Ready, Tabled, Left, filling, considered_by, listing_by, read_as};
ghost use Rattle.candidates.specs.Candidates.{from_start, with_one, PutsOf, Mays, Sures, PutsBy, RaisedBy};
ghost use Rattle.candidates.specs.Candidates.{NextChart, UntilChart, Stated, Chooses};

use cells::{CHARTS, masks, small, triggers};
use layout::body::Shape;
use layout::limits::{HEAD_BYTES, TRANSITION_BYTES};
use layout::record::Transition;

// The chart whose candidates are chosen, its present state, what is read of its actions, what it may be offered:
// surely, of its own action, and of all others'; and the states that it must not go to, as a mask.
#[derive(Clone, Copy)]
pub struct Around {
    pub chart: usize,
    pub state: u8,
    pub read: u64,
    pub low: u64,
    pub own: u64,
    pub others: u64,
    pub shut: u64,
}

// The states that a mask has room for.
const BITS: u8 = 64;

// What the transitions from a state put out, some of them and all of them, and how many they are.
#[derive(Clone, Copy)]
pub struct Puts {
    pub may: u64,
    pub sure: u64,
    pub count: u64,
}

// The transition whose first byte stands at `at`, with only what is read of its action. A loop over a chart's
// transitions goes from record to record, so that most of them cost it one byte.
fn read_at(body: &[u8], at: usize, read: u64) -> Transition
    requires { at + 28 ≤ length body.now }
    ensures { result ≡ narrow read (transition_of (drop at body.now)) }
{
    let r = layout::record::read_transition(body, at);
    Transition {
        from: r.from,
        to: r.to,
        needed: r.needed,
        barred: r.barred,
        action: r.action & read,
    }
}

// One transition more, by its first byte, if it is from the state.
fn with_one(body: &[u8], at: usize, state: u8, read: u64, p: Puts) -> Puts
    requires { (at + 28 ≤ length body.now) × (p.count < 18446744073709551615) }
    ensures { result ≡ with_one (same (transition_of (drop at body.now)).from state)
        (narrow read (transition_of (drop at body.now))).action p }
{
    if body[at] == state {
        let r = read_at(body, at, read);
        return Puts {
            may: p.may | r.action,
            sure: p.sure & r.action,
            count: p.count + 1,
        };
    }
    p
}

// What the transitions from a state put out that is read, of `count` from `start` on, and how many they are.
fn puts_of(n: Shape, body: &[u8], start: usize, count: usize, state: u8, read: u64) -> Puts
    requires { Holds n body.now × (start + count ≤ n.transitions) }
    ensures { PutsOf (read_as n body.now read) start count state result }
{
    let mut puts = Puts {
        may: 0,
        sure: signals::ALL,
        count: 0,
    };
    let mut at = HEAD_BYTES * n.charts + TRANSITION_BYTES * start;
    for p in 0..count {
        puts = with_one(body, at, state, read, puts);
        at += TRANSITION_BYTES;
    }
    puts
}

// What each chart's transitions from its present state put out that is read, and how many they are.
pub fn puts_all(
    n: Shape,
    body: &[u8],
    config: &[u8],
    reads: &[u64; CHARTS],
    may: &mut [u64; CHARTS],
    sures: &mut [u64; CHARTS],
    counts: &mut [u64; CHARTS],
)
    requires { Ready n body.now config.now × (length may.old ≡ most_charts) × (length sures.old ≡ most_charts)
        × (length counts.old ≡ most_charts) }
    ensures { PutsBy n body.now config.now reads.now n.charts
        may.new sures.new counts.new }
{
    let mut start: usize = 0;
    for c in 0..n.charts {
        let head = layout::body::head_at(n, body, c);
        let count = head.transitions as usize;
        let puts = puts_of(n, body, start, count, config[c], reads[c]);
        may[c] = puts.may;
        sures[c] = puts.sure;
        counts[c] = puts.count;
        start += count;
    }
}

// Each chart is surely offered what it gets of u, which chart c puts out.
fn raise_all(masks: &[u64], low: &mut [u64; CHARTS], c: usize, u: u64)
    requires { (masks_for (c + 1) ≤ length masks.now) × (length low.old ≡ most_charts) × (c < most_charts) }
    ensures { (length low.new ≡ most_charts)
        × Row low.new (λ d. get_or low.old d 0 ∪ u ∩ back_at masks.now d c) }
{
    for d in 0..CHARTS {
        low[d] = low[d] | u & masks::back(masks, d, c);
    }
}

// The same where u is what chart c puts out if it is active: in a slave it need not be.
fn raise(masks: &[u64], small: &[u8], low: &mut [u64; CHARTS], c: usize, u: u64)
    requires { Tabled (c + 1) masks.now small.now × (length low.old ≡ most_charts) × (c < most_charts) }
    ensures { (length low.new ≡ most_charts)
        × Row low.new
        (λ d. get_or low.old d 0 ∪ sure_at small.now c u ∩ back_at masks.now d c) }
{
    if small::master(small, c) < CHARTS {
        return;
    }
    if u != 0 {
        raise_all(masks, low, c, u);
    }
}

// What a chart surely puts out, if u is what all its transitions from its state do: nothing, where it may stay.
fn surely(n: Shape, u: u64) -> u64
    ensures { result ≡ sure_in (same n.edition stay_edition) u }
{
    if n.edition == checks::limits::STAY_EDITION as usize {
        return 0;
    }
    u
}

// Each chart is surely offered, besides what `low` has, what other charts put out whatever they do; `sures` has what
// all transitions of each do.
fn raise_sure(n: Shape, sures: &[u64; CHARTS], masks: &[u64], small: &[u8], low: &mut [u64; CHARTS])
    requires { (n.charts ≤ most_charts) × Tabled n.charts masks.now small.now
        × (length low.old ≡ most_charts) }
    ensures { RaisedBy n masks.now small.now sures.now n.charts
        low.old low.new }
{
    for c in 0..n.charts {
        let sure = surely(n, sures[c]);
        raise(masks, small, low, c, sure);
    }
}

// What chart e might put out, if it is not chart c.
fn but(may: &[u64; CHARTS], c: usize, e: usize) -> u64
    requires { e < most_charts }
    ensures { result ≡ cond (same e c) 0 (get_or may.now e 0) }
{
    if e == c {
        return 0;
    }
    may[e]
}

// What the charts other than c might put in for it.
pub fn others(masks: &[u64], charts: usize, may: &[u64; CHARTS], c: usize) -> u64
    requires { (masks_for charts ≤ length masks.now) × (charts ≤ most_charts) × (c < charts) }
    ensures { result ≡ others_at masks.now charts (λ e. get_or may.now e 0) c }
{
    let mut u: u64 = 0;
    for e in 0..charts {
        u = u | but(may, c, e) & masks::back(masks, c, e);
    }
    u
}

// Whether a mask of states has the state. States from BITS on are in none.
pub fn is_shut(shut: u64, state: u8) -> bool
    ensures { result ≡ bit shut state }
{
    if state >= BITS {
        return false;
    }
    signals::has(shut, state as u32)
}

// Whether a transition can be met, its own action counted, whatever the others do, and its target is not shut.
fn lasts(t: Transition, low: u64, own: u64, others: u64, shut: u64) -> bool
    ensures { result ≡ lasts_by low own others shut t }
{
    let sure = low | t.action & own;
    let guard = settling::Guard {
        needed: t.needed,
        barred: t.barred,
    };
    settling::holds(guard, sure, sure | others) & !is_shut(shut, t.to)
}

fn is_at(masks: &[u64], small: &[u8], c: usize, v: usize, t: Transition) -> bool
    requires { Tabled (c + 1) masks.now small.now × (c < most_charts) × (v < most_from_state) }
    ensures { result ≡ is_at masks.now small.now c v t }
{
    (masks::needed(masks, c, v) == t.needed)
        & ((masks::barred(masks, c, v) == t.barred)
            & ((masks::action(masks, c, v) == t.action) & (small::to(small, c, v) == t.to)))
}

// Whether one of chart c's first n candidates is the transition.
fn is_again(masks: &[u64], small: &[u8], c: usize, n: usize, t: Transition) -> bool
    requires { Tabled (c + 1) masks.now small.now × (c < most_charts) × (n ≤ most_from_state) }
    ensures { result ≡ is_again masks.now small.now c n t }
{
    for v in 0..n {
        if is_at(masks, small, c, v, t) {
            return true;
        }
    }
    false
}

fn put(masks: &mut [u64], small: &mut [u8], c: usize, v: usize, place: u8, t: Transition)
    requires { Tabled (c + 1) masks.old small.old × (c < most_charts) × (v < most_from_state) }
    ensures { (masks.new ≡ put_masks masks.old c v t)
        × (small.new ≡ put_small small.old c v place t) }
{
    masks::put_candidate(masks, c, v, t);
    small::put_candidate(small, c, v, place, t);
}

// One transition more, by its first byte and its place in its chart's list: a candidate if it is from the chart's
// state, lasts, and is none yet.
fn consider(
    body: &[u8],
    at: usize,
    place: u8,
    masks: &mut [u64],
    small: &mut [u8],
    a: Around,
    have: usize,
) -> usize
    requires { (at + 28 ≤ length body.now) × Tabled (a.chart + 1) masks.old small.old
        × (a.chart < most_charts) × (have ≤ most_from_state)
        × ((transition_of (drop at body.now)).from ≡ a.state → have < most_from_state) }
    ensures { Left (considered_by a place (narrow a.read (transition_of (drop at body.now)))
        (filling masks.old small.old have)) masks.new small.new result }
{
    if body[at] != a.state {
        return have;
    }
    let r = read_at(body, at, a.read);
    if !lasts(r, a.low, a.own, a.others, a.shut) {
        return have;
    }
    if is_again(masks, small, a.chart, have, r) {
        return have;
    }
    put(masks, small, a.chart, have, place, r);
    have + 1
}

// Chart a.chart's candidates, from its `count` transitions from `start` on; how many there are.
fn list(
    n: Shape,
    body: &[u8],
    start: usize,
    count: usize,
    masks: &mut [u64],
    small: &mut [u8],
    a: Around,
) -> usize
    requires { Holds n body.now × (start + count ≤ n.transitions) × (count < 256)
        × Tabled (a.chart + 1) masks.old small.old × (a.chart < most_charts)
        × (tally count (λ u. one (same (transition_at n body.now (start + u)).from a.state)) ≤ most_from_state) }
    ensures { Left (listing_by a (from_start n body.now a.read start) count
        (filling masks.old small.old 0)) masks.new small.new result
        × (result ≤ most_from_state) }
{
    let mut have: usize = 0;
    let mut at = HEAD_BYTES * n.charts + TRANSITION_BYTES * start;
    for p in 0..count {
        have = consider(body, at, p as u8, masks, small, a, have);
        at += TRANSITION_BYTES;
    }
    have
}

// Chart c's candidates and their number. Its transitions begin at `start`; returns where the next chart's do.
fn list_chart(
    n: Shape,
    body: &[u8],
    config: &[u8],
    reads: &[u64; CHARTS],
    lows: &[u64; CHARTS],
    may: &[u64; CHARTS],
    shuts: &[u64; CHARTS],
    masks: &mut [u64],
    small: &mut [u8],
    c: usize,
    start: usize,
) -> usize
    requires { Ready n body.now config.now × Mays n body.now config.now reads.now n.charts may.now
        × Tabled n.charts masks.old small.old × (c < n.charts) × (start ≡ start_of n body.now c) }
    ensures { (result ≡ start_of n body.now (c + 1))
        × Tabled n.charts masks.new small.new
        × NextChart n body.now config.now reads.now lows.now
        shuts.now c masks.old small.old masks.new small.new }
{
    let head = layout::body::head_at(n, body, c);
    let count = head.transitions as usize;
    let own = masks::back(masks, c, c);
    let rest = others(masks, n.charts, may, c);
    let a = Around {
        chart: c,
        state: config[c],
        read: reads[c],
        low: lows[c],
        own: own,
        others: rest,
        shut: shuts[c],
    };
    let have = list(n, body, start, count, masks, small, a);
    small::put_count(small, c, have as u8);
    start + count
}

fn list_all(
    n: Shape,
    body: &[u8],
    config: &[u8],
    reads: &[u64; CHARTS],
    lows: &[u64; CHARTS],
    may: &[u64; CHARTS],
    shuts: &[u64; CHARTS],
    masks: &mut [u64],
    small: &mut [u8],
)
    requires { Ready n body.now config.now × Mays n body.now config.now reads.now n.charts may.now
        × Tabled n.charts masks.old small.old }
    ensures { UntilChart n body.now config.now reads.now lows.now
        shuts.now masks.old small.old n.charts masks.new
        small.new }
{
    let mut start: usize = 0;
    for c in 0..n.charts {
        start = list_chart(
            n, body, config, reads, lows, may, shuts, masks, small, c, start,
        );
    }
}

// What chart c's candidates put out, all together.
fn puts_out(masks: &[u64], small: &[u8], c: usize) -> u64
    requires { Tabled (c + 1) masks.now small.now × (c < most_charts) × (count_at small.now c ≤ most_from_state) }
    ensures { result ≡ may_at masks.now small.now c }
{
    let count = small::count(small, c);
    let mut u: u64 = 0;
    for v in 0..count {
        u = u | masks::action(masks, c, v);
    }
    u
}

// Nothing is left to put out after the last chart. The row is cleared whole: it has the same length in every file.
fn clear_row(masks: &mut [u64], charts: usize)
    requires { (masks_for charts ≤ length masks.old) × (charts ≤ most_charts) }
    ensures { AheadRow charts (λ c. 0) most_charts masks.old masks.new }
{
    for c in 0..CHARTS {
        masks::put_ahead(masks, charts, c, 0);
    }
}

// What chart k, whose candidates put out u, and the later ones may put in for each chart.
fn ahead_row(masks: &mut [u64], charts: usize, k: usize, u: u64)
    requires { (masks_for charts ≤ length masks.old) × (charts ≤ most_charts) × (k < charts) }
    ensures { AheadRow k (ahead_by masks.old k u) charts masks.old masks.new }
{
    for c in 0..charts {
        let later = masks::ahead(masks, k + 1, c);
        let offered = u & masks::back(masks, c, k) | later;
        masks::put_ahead(masks, k, c, offered);
    }
}

fn ahead_all(masks: &mut [u64], small: &[u8], charts: usize)
    requires { Tabled charts masks.old small.now × (charts ≤ most_charts)
        × ((c : ℕ) → c < charts → count_at small.now c ≤ most_from_state) }
    ensures { AheadFrom charts small.now 0 masks.old masks.new }
{
    clear_row(masks, charts);
    for k in (0..charts).rev() {
        let u = puts_out(masks, small, k);
        ahead_row(masks, charts, k, u);
    }
}

// The present states.
fn put_states(small: &mut [u8], config: &[u8], charts: usize)
    requires { (length small.old ≡ small_size) × (charts ≤ most_charts) × (charts ≤ length config.now) }
    ensures { Stated config.now charts small.old small.new }
{
    for c in 0..charts {
        small::put_state(small, c, config[c]);
    }
}

// Fills in all that a search needs of a configuration and of what each chart is offered of the input, in `low`. There
// it leaves what each is surely offered: of the input, and of what other charts put out whatever they do. `reads` has
// what is read of each chart's actions: the rest is left out, so candidates that differ in it alone are one. `may` and
// `sures` have what its transitions put out of that. `shuts` has the states that each chart must not go to, since no
// open choice begins so. The wiring and the masters are there.
pub fn choose(
    n: Shape,
    body: &[u8],
    config: &[u8],
    reads: &[u64; CHARTS],
    may: &[u64; CHARTS],
    sures: &[u64; CHARTS],
    shuts: &[u64; CHARTS],
    low: &mut [u64; CHARTS],
    masks: &mut [u64],
    small: &mut [u8],
)
    requires { Ready n body.now config.now × Tabled n.charts masks.old small.old
        × Mays n body.now config.now reads.now n.charts may.now
        × Sures n body.now config.now reads.now n.charts sures.now × (length low.old ≡ most_charts) }
    ensures { Chooses n body.now config.now reads.now low.old
        shuts.now low.new masks.old small.old masks.new
        small.new }
{
    put_states(small, config, n.charts);
    raise_sure(n, sures, masks, small, low);
    list_all(n, body, config, reads, low, may, shuts, masks, small);
    ahead_all(masks, small, n.charts);
}

// Whether a chart that is surely active has no candidate, and cannot stay.
pub fn is_stuck(small: &[u8], stays: &[u8], charts: usize) -> bool
    requires { (length small.now ≡ small_size) × (length stays.now ≡ stays_size) × (charts ≤ most_charts) }
    ensures { (g : List ℕ) → result ≡ stuck small.now g stays.now charts }
{
    for c in 0..charts {
        if (small::count(small, c) == 0)
            & (!(small::master(small, c) < CHARTS) & !(triggers::told(stays, c) != 0))
        {
            return true;
        }
    }
    false
}
