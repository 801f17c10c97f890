// How many choices of a step are open, in both editions: counted from the highest chart down, and not one by one. What
// is open is said in the crate meaning (Open); that this is its number, in the crate wiring (Completions to Few).
#![tactic(auto)]

ghost use Rattle.std.specs.Prelude.{◌≡◌, ◌+◌, ◌≤◌, ◌<◌, length, drop, replicate};
ghost use Rattle.layout.specs.Record.{transition_of};
ghost use Rattle.layout.specs.Body.{Holds, head_at, start_of};
ghost use Rattle.meaning.specs.Numbers.{most_charts};
ghost use Rattle.meaning.specs.File.{file_at};
ghost use Rattle.meaning.specs.Open.{open_in};
ghost use Rattle.counting.specs.Counting.{Countable, Roomy, factor_in, branch_in, Small, staying_in, added_in, sum_in};
ghost use Rattle.counting.specs.Counting.{leaving_in, LeavesTo, encloses_in};
ghost use Rattle.counting.specs.Counting.{Smalls, total_in};
ghost use Rattle.counting.specs.Counting.{outside_in, TotalSmall, CountsOn, Stored, Filled, ShutTo, ShutOne};
ghost use Rattle.counting.specs.Counting.{Shuts};

use layout::body::Shape;
use layout::limits::{CHARTS, HEAD_BYTES, TRANSITION_BYTES};

// The states that a mask has room for.
const BITS: u8 = 64;

fn wide(x: u8) -> usize
    ensures { result ≡ x }
{
    x as usize
}

// Chart d's count, if d is nearest in a slave of chart c that going from state q to state u activates; else 1.
fn factor(masters: &[u8], states: &[u8], counts: &[u64], d: usize, c: usize, q: u8, u: u8) -> u64
    requires { Roomy (d + 1) masters.now states.now counts.now }
    ensures { result ≡ factor_in masters.now states.now counts.now c q u d }
{
    if wide(masters[d]) != c {
        return 1;
    }
    let s = states[d];
    if s == q {
        return counts[d];
    }
    if s == u {
        return counts[d];
    }
    1
}

// The product over the charts that chart c activates by going from state q to state u.
fn branch(
    charts: usize,
    masters: &[u8],
    states: &[u8],
    counts: &[u64],
    c: usize,
    q: u8,
    u: u8,
) -> u64
    requires { Roomy charts masters.now states.now counts.now
        × Small charts masters.now states.now counts.now c q u }
    ensures { result ≡ branch_in charts masters.now states.now counts.now c q u }
{
    let mut product: u64 = 1;
    for d in 0..charts {
        product = factor(masters, states, counts, d, c, q, u) * product;
    }
    product
}

// What staying adds to the entry of chart c in state q: only in the edition in which charts may stay.
fn staying(n: Shape, masters: &[u8], states: &[u8], counts: &[u64], c: usize, q: u8) -> u64
    requires { Roomy n.charts masters.now states.now counts.now
        × Small n.charts masters.now states.now counts.now c q q }
    ensures { result ≡ staying_in n masters.now states.now counts.now c q }
{
    if n.edition != checks::limits::STAY_EDITION as usize {
        return 0;
    }
    let charts = n.charts;
    branch(charts, masters, states, counts, c, q, q)
}

// What the transition whose first byte stands at `at` adds to the entry of chart c in state q: nothing, if it leaves
// another state.
fn added(
    n: Shape,
    body: &[u8],
    at: usize,
    masters: &[u8],
    states: &[u8],
    counts: &[u64],
    c: usize,
    q: u8,
) -> u64
    requires { (at + 28 ≤ length body.now) × Roomy n.charts masters.now states.now counts.now
        × Small n.charts masters.now states.now counts.now c q (transition_of (drop at body.now)).to }
    ensures { result ≡ added_in n.charts masters.now states.now counts.now c q
        (transition_of (drop at body.now)) }
{
    let r = layout::record::read_transition(body, at);
    let from = r.from;
    let to = r.to;
    if from != q {
        return 0;
    }
    let charts = n.charts;
    branch(charts, masters, states, counts, c, q, to)
}

// The sum over staying and the transitions of chart c in state q, `count` from `start` on.
fn summed(
    n: Shape,
    body: &[u8],
    start: usize,
    count: usize,
    masters: &[u8],
    states: &[u8],
    counts: &[u64],
    c: usize,
    q: u8,
) -> u64
    requires { Holds n body.now × (start ≡ start_of n body.now c) × (count ≡ (head_at n body.now c).transitions)
        × (start + count ≤ n.transitions) × Roomy n.charts masters.now states.now counts.now
        × Smalls n body.now masters.now states.now counts.now c q }
    ensures { result ≡ sum_in n body.now masters.now states.now
        counts.now c q count }
{
    let mut total = staying(n, masters, states, counts, c, q);
    let mut at = HEAD_BYTES * n.charts + TRANSITION_BYTES * start;
    for p in 0..count {
        total = added(n, body, at, masters, states, counts, c, q) + total;
        at += TRANSITION_BYTES;
    }
    total
}

// Whether some chart stands nearest in a slave of chart c.
fn encloses(charts: usize, masters: &[u8], c: usize) -> bool
    requires { charts ≤ length masters.now }
    ensures { result ≡ encloses_in charts masters.now c }
{
    for d in 0..charts {
        if wide(masters[d]) == c {
            return true;
        }
    }
    false
}

// The entry of chart c in state q, which `left` of its transitions leave. Where it encloses no other chart, each of its
// moves counts once.
fn entry(
    n: Shape,
    body: &[u8],
    start: usize,
    count: usize,
    left: u64,
    masters: &[u8],
    states: &[u8],
    counts: &[u64],
    c: usize,
    q: u8,
) -> u64
    requires { Holds n body.now × (start ≡ start_of n body.now c) × (count ≡ (head_at n body.now c).transitions)
        × (start + count ≤ n.transitions) × Roomy n.charts masters.now states.now counts.now
        × Smalls n body.now masters.now states.now counts.now c q
        × (left ≡ leaving_in n body.now (start_of n body.now c) q (head_at n body.now c).transitions) }
    ensures { result ≡ sum_in n body.now masters.now states.now
        counts.now c q count }
{
    let charts = n.charts;
    if encloses(charts, masters, c) {
        return summed(n, body, start, count, masters, states, counts, c, q);
    }
    let stays = staying(n, masters, states, counts, c, q);
    left + stays
}

// Stores chart k's entry, made of those above it, in place of how many of its transitions leave its state. Answers
// where its transitions start; `end` is where the next chart's do.
fn store(
    n: Shape,
    body: &[u8],
    config: &[u8],
    masters: &[u8],
    states: &[u8],
    counts: &mut [u64],
    k: usize,
    end: usize,
) -> usize
    requires { Countable n body.now config.now masters.now states.now × (k < n.charts)
        × (n.charts ≤ length counts.old) × (end ≡ start_of n body.now (k + 1))
        × CountsOn n body.now config.now (k + 1) counts.old
        × LeavesTo n body.now config.now (k + 1) counts.old }
    ensures { Stored n body.now config.now k counts.old
        counts.new result }
{
    let head = layout::body::head_at(n, body, k);
    let count = wide(head.transitions);
    let start = end - count;
    let q = config[k];
    let left = counts[k];
    let sum = entry(n, body, start, count, left, masters, states, counts, k, q);
    counts[k] = sum;
    start
}

// Stores each chart's entry, from the highest down, in place of how many of its transitions leave its state.
pub fn fill(n: Shape, body: &[u8], config: &[u8], masters: &[u8], states: &[u8], counts: &mut [u64])
    requires { Countable n body.now config.now masters.now states.now × (n.charts ≤ length counts.old)
        × LeavesTo n body.now config.now n.charts counts.old }
    ensures { Filled n body.now config.now counts.old counts.new }
{
    let mut start = n.transitions;
    for k in (0..n.charts).rev() {
        start = store(n, body, config, masters, states, counts, k, start);
    }
}

// Chart d's count, if d is outside all slaves, which a master that is no chart's number says; else 1.
fn outside(masters: &[u8], counts: &[u64], d: usize) -> u64
    requires { (d < length masters.now) × (d < length counts.now) }
    ensures { result ≡ outside_in masters.now counts.now d }
{
    if wide(masters[d]) < CHARTS {
        return 1;
    }
    counts[d]
}

// The product over the charts outside all slaves.
fn total(n: Shape, masters: &[u8], counts: &[u64]) -> u64
    requires { (n.charts ≤ length masters.now) × (n.charts ≤ length counts.now)
        × TotalSmall n masters.now counts.now }
    ensures { result ≡ total_in n masters.now counts.now }
{
    let charts = n.charts;
    let mut product: u64 = 1;
    for d in 0..charts {
        product = outside(masters, counts, d) * product;
    }
    product
}

// How many choices are open, from a configuration: those that keep the present states and the rules of activity, guards
// aside. `counts` has how many transitions of each chart leave its state, and is left with the charts' own counts.
pub fn open_choices(
    n: Shape,
    body: &[u8],
    config: &[u8],
    masters: &[u8],
    states: &[u8],
    counts: &mut [u64],
) -> u64
    requires { Countable n body.now config.now masters.now states.now × (n.charts ≤ length counts.old)
        × LeavesTo n body.now config.now n.charts counts.old }
    ensures { (result ≡ open_in (file_at n body.now) config.now)
        × Filled n body.now config.now counts.old counts.new }
{
    fill(n, body, config, masters, states, counts);
    total(n, masters, counts)
}

// The states to which a chart at q must not go, so as not to activate the slave of state s: all, if q does so already.
fn shut_by(q: u8, s: u8) -> u64
    ensures { ShutTo q s result }
{
    if q == s {
        return signals::ALL;
    }
    if s >= BITS {
        return 0;
    }
    signals::single(s as u32)
}

// Chart d, if it has no open choice, must not be activated by its master, if that is one of the charts.
fn shut_one(
    charts: usize,
    config: &[u8],
    masters: &[u8],
    states: &[u8],
    counts: &[u64],
    d: usize,
    shut: &mut [u64; CHARTS],
)
    requires { Roomy (d + 1) masters.now states.now counts.now × (charts ≤ length config.now)
        × (charts ≤ most_charts) × (length shut.old ≡ most_charts) }
    ensures { (length shut.new ≡ most_charts)
        × ShutOne charts config.now masters.now states.now counts.now d
        shut.old shut.new }
{
    if counts[d] != 0 {
        return;
    }
    let c = wide(masters[d]);
    if c >= charts {
        return;
    }
    shut[c] = shut[c] | shut_by(config[c], states[d]);
}

// For each chart the states to which it must not go, as a mask: no open choice begins that way. `shut` is lent empty.
pub fn shut(
    charts: usize,
    config: &[u8],
    masters: &[u8],
    states: &[u8],
    counts: &[u64],
    shut: &mut [u64; CHARTS],
)
    requires { Roomy charts masters.now states.now counts.now × (charts ≤ length config.now)
        × (charts ≤ most_charts) × (shut.old ≡ replicate most_charts 0) }
    ensures { Shuts charts config.now masters.now states.now
        counts.now charts shut.new }
{
    for d in 0..charts {
        shut_one(charts, config, masters, states, counts, d, shut);
    }
}
