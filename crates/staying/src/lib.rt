// The charts that may stay, in a file of the edition that lets them: what triggers each, for a search to look up.
// Triggers are all transitions from a chart's present state, those too that are no candidates.
#![tactic(auto)]

ghost use Rattle.std.specs.Prelude.{◌≡◌, ◌+◌, ◌*◌, ◌≤◌, ◌<◌, length, get_or, drop};
ghost use Rattle.signals.specs.Mask.{◌∪◌};
ghost use Rattle.layout.specs.Record.{transition_of};
ghost use Rattle.layout.specs.Body.{Holds, transition_at, start_of};
ghost use Rattle.layout.specs.Body.{from as fromOn};
ghost use Rattle.meaning.specs.Sums.{tally, one};
ghost use Rattle.meaning.specs.Meaning.{same};
ghost use Rattle.meaning.specs.Numbers.{most_charts, most_from_state, stay_edition};
ghost use Rattle.cells.specs.Triggers.{triggers, triggers_for};
ghost use Rattle.cells.specs.Table.{masks_for};
ghost use Rattle.candidates.specs.Candidates.{Ready};
ghost use Rattle.staying.specs.Staying.{Notes, Noting, Tells, Telling, Stays};

use cells::{CHARTS, triggers};
use layout::body::Shape;
use layout::limits::{HEAD_BYTES, TRANSITION_BYTES};

// One transition more, by its first byte: a trigger of chart c, if it is from the chart's state. How many there are
// then.
fn note(body: &[u8], at: usize, state: u8, guards: &mut [u64], c: usize, have: usize) -> usize
    requires { (at + 28 ≤ length body.now) × (triggers_for (c + 1) ≤ length guards.old) × (c < most_charts)
        × (have ≤ most_from_state) × ((transition_of (drop at body.now)).from ≡ state → have < most_from_state) }
    ensures { Notes (transition_of (drop at body.now)) state c have guards.old
        guards.new result }
{
    if body[at] != state {
        return have;
    }
    let r = layout::record::read_transition(body, at);
    triggers::put(guards, c, have, r);
    have + 1
}

// The triggers of chart c, from its `count` transitions from `start` on; how many there are.
fn note_chart(
    n: Shape,
    body: &[u8],
    start: usize,
    count: usize,
    state: u8,
    guards: &mut [u64],
    c: usize,
) -> usize
    requires { Holds n body.now × (start + count ≤ n.transitions) × (triggers_for (c + 1) ≤ length guards.old)
        × (c < most_charts)
        × (tally count (λ u. one (same (transition_at n body.now (start + u)).from state)) ≤ most_from_state) }
    ensures { Noting (transition_at n body.now) start count state c count guards.old
        guards.new result × (result ≤ most_from_state) }
{
    let mut have: usize = 0;
    let mut at = HEAD_BYTES * n.charts + TRANSITION_BYTES * start;
    for p in 0..count {
        have = note(body, at, state, guards, c, have);
        at += TRANSITION_BYTES;
    }
    have
}

// What a search is told of chart c: 0 if it is surely triggered, or its state is shut, so that it cannot stay; else how
// many triggers it has, and 1.
fn tell(
    n: Shape,
    body: &[u8],
    start: usize,
    count: usize,
    state: u8,
    guards: &mut [u64],
    c: usize,
    low: u64,
    high: u64,
    shut: u64,
) -> u8
    requires { Holds n body.now × (start + count ≤ n.transitions) × (triggers_for (c + 1) ≤ length guards.old)
        × (c < most_charts)
        × (tally count (λ u. one (same (transition_at n body.now (start + u)).from state)) ≤ most_from_state) }
    ensures { Tells (fromOn (transition_at n body.now) start count) state c low high shut
        guards.old guards.new result }
{
    let have = note_chart(n, body, start, count, state, guards, c);
    if settling::trips(guards, c, have, low, high) {
        return 0;
    }
    if candidates::is_shut(shut, state) {
        return 0;
    }
    (have + 1) as u8
}

// The same of every chart, where `low` has what each is surely offered, `may` what each might put out, and `shuts` the
// states that each must not go to.
fn tell_all(
    n: Shape,
    body: &[u8],
    config: &[u8],
    low: [u64; CHARTS],
    may: &[u64; CHARTS],
    shuts: [u64; CHARTS],
    masks: &[u64],
    guards: &mut [u64],
) -> [u8; triggers::STAYS]
    requires { Ready n body.now config.now × (masks_for n.charts ≤ length masks.now)
        × (triggers_for n.charts ≤ length guards.old) }
    ensures { Telling n body.now config.now low may.now shuts
        masks.now n.charts guards.new result }
{
    let mut stays = [0u8; triggers::STAYS];
    stays[triggers::SOME_STAY] = 1;
    let mut start: usize = 0;
    for c in 0..n.charts {
        let head = layout::body::head_at(n, body, c);
        let count = head.transitions as usize;
        let others = candidates::others(masks, n.charts, may, c);
        let high = low[c] | others;
        stays[c] = tell(
            n, body, start, count, config[c], guards, c, low[c], high, shuts[c],
        );
        start += count;
    }
    stays
}

// What a search is told of every chart: that none may stay, unless the file's edition lets them. Then `guards` gets the
// triggers.
pub fn stays(
    n: Shape,
    body: &[u8],
    config: &[u8],
    low: [u64; CHARTS],
    may: [u64; CHARTS],
    shuts: [u64; CHARTS],
    masks: &[u64],
    guards: &mut [u64],
) -> [u8; triggers::STAYS]
    requires { Ready n body.now config.now × (masks_for n.charts ≤ length masks.now)
        × (n.edition ≡ stay_edition → triggers_for n.charts ≤ length guards.old) }
    ensures { Stays n body.now config.now may low shuts masks.now
        guards.new result }
{
    if n.edition != checks::limits::STAY_EDITION as usize {
        return [0u8; triggers::STAYS];
    }
    tell_all(n, body, config, low, &may, shuts, masks, guards)
}
