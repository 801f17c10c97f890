// A search over tables of masks: it finds the permitted choices by settling chart after chart. It knows no file.
#![tactic(auto)]

ghost use Rattle.std.specs.Prelude.{◌≡◌, ◌&&◌, not, List, ℕ, ◌+◌, ◌-◌, ◌*◌, ◌≤◌, ◌<◌, length, get_or};
ghost use Rattle.signals.specs.Mask.{◌∪◌, ◌∩◌, apart};
ghost use Rattle.meaning.specs.Meaning.{eq_list};
ghost use Rattle.meaning.specs.Numbers.{most_charts, most_from_state};
ghost use Rattle.meaning.specs.Calls.{made};
ghost use Rattle.cells.specs.Table.{masks_for, Tables, action_at, up_at};
ghost use Rattle.cells.specs.Trail.{trail_for, steps, column_in, Room};
ghost use Rattle.settling.specs.Trail.{beginning};
ghost use Rattle.settling.specs.Asks.{Passes};
ghost use Rattle.settling.specs.Hunt.{wakes, taken, settle_of, outcome_in, first_found, over, nothing, found_size};
ghost use Rattle.settling.specs.Hunt.{found_in};
ghost use Rattle.settling.specs.Hunt.{BytesPut, Held};
ghost use Rattle.cells.specs.Triggers.{Guards};
ghost use Rattle.settling.specs.Calm.{hunts_both, Hunted};

use cells::{CHARTS, masks, moves, small, trail, triggers};
use settling::Found;

// Where what was found has the places of the first permitted choice, behind its next states, and 1 if there is one, and
// 1 if all others agree with it (crate settling, Hunt).
const PLACES: usize = CHARTS;

const HAS: usize = 2 * CHARTS;

const AGREE: usize = 2 * CHARTS + 1;

// How many bytes it has.
const FOUND_BYTES: usize = 2 * CHARTS + 2;

// What comes out of the whole once chart k takes its candidate v.
fn shown_by(masks: &[u64], output: u64, k: usize, v: usize) -> u64
    requires { (masks_for (k + 1) ≤ length masks.now) × (k < most_charts) × (v < most_from_state) }
    ensures { result ≡ output ∪ action_at masks.now k v ∩ up_at masks.now k }
{
    output | masks::action(masks, k, v) & masks::up(masks, k)
}

// What chart c has in a column of `moves`, or the filler where there is no chart c.
fn entry(moves: &[u8; moves::SIZE], charts: usize, column: usize, filler: u8, c: usize) -> u8
    requires { (charts ≤ most_charts) × (column < steps) × (c < most_charts) }
    ensures { result ≡ get_or (column_in moves.now charts column filler) c 0 }
{
    if c < charts {
        moves::entry(moves, c, column)
    } else {
        filler
    }
}

// Puts what all charts have in a column of `moves`, and the filler behind it, from `at` on. Each byte goes straight to
// its place: a row that is made first and then copied as one word waits for its bytes.
fn put_column(
    best: &mut [u8; FOUND_BYTES],
    at: usize,
    moves: &[u8; moves::SIZE],
    charts: usize,
    column: usize,
    filler: u8,
)
    requires { (length best.old ≡ found_size) × (at ≤ most_charts + 2) × (charts ≤ most_charts) × (column < steps) }
    ensures { BytesPut at (column_in moves.now charts column filler) best.old
        best.new }
{
    for c in 0..CHARTS {
        best[at + c] = entry(moves, charts, column, filler, c);
    }
}

// Whether the next states of all charts are the first outcome's.
fn same_states(best: &[u8; FOUND_BYTES], moves: &[u8; moves::SIZE], charts: usize) -> bool
    requires { charts ≤ most_charts }
    ensures { (o : ℕ) (g : List ℕ) →
        result ≡ eq_list (outcome_in moves.now charts o).next (found_in best.now g).next }
{
    for c in 0..CHARTS {
        let first = best[c];
        let next = entry(moves, charts, moves::NEXT, 0, c);
        if next != first {
            return false;
        }
    }
    true
}

// One byte for each chart, from `at` on.
fn bytes_at(best: &[u8; FOUND_BYTES], at: usize) -> [u8; CHARTS]
    requires { at ≤ most_charts + 2 }
    ensures { result ≡ made most_charts (λ c. get_or best.now (at + c) 0) }
{
    let mut row = [0u8; CHARTS];
    for c in 0..CHARTS {
        row[c] = best[at + c];
    }
    row
}

// The first outcome: all charts are settled.
fn keep(
    output: u64,
    moves: &[u8; moves::SIZE],
    charts: usize,
    best: &mut [u8; FOUND_BYTES],
    shown: &mut [u64; 1],
)
    requires { Held best.old shown.old × (charts ≤ most_charts) }
    ensures { Held best.new shown.new × (found_in best.new shown.new
        ≡ first_found (outcome_in moves.now charts output)) }
{
    put_column(best, 0, moves, charts, moves::NEXT, 0);
    put_column(
        best,
        PLACES,
        moves,
        charts,
        moves::TAKEN,
        settling::NO_PLACE,
    );
    best[HAS] = 1;
    best[AGREE] = 1;
    shown[0] = output;
}

// One outcome more: all charts are settled.
fn settle(
    output: u64,
    moves: &[u8; moves::SIZE],
    charts: usize,
    best: &mut [u8; FOUND_BYTES],
    shown: &mut [u64; 1],
)
    requires { Held best.old shown.old × (charts ≤ most_charts) }
    ensures { Held best.new shown.new
        × (found_in best.new shown.new ≡ settle_of (outcome_in moves.now charts output)
        (found_in best.old shown.old)) }
{
    if best[HAS] != 1 {
        keep(output, moves, charts, best, shown);
        return;
    }
    if output == shown[0] {
        if same_states(best, moves, charts) {
            return;
        }
    }
    best[AGREE] = 0;
}

// Whether two permitted choices that disagree were found: then nothing more can change.
fn disagree(best: &[u8; FOUND_BYTES]) -> bool
    ensures { (g : List ℕ)
        → result ≡ ((found_in best.now g).has && not (found_in best.now g).agree) }
{
    (best[HAS] == 1) & (best[AGREE] != 1)
}

// What the charts left to be settled give, from chart charts - left on, joined to what was found before, in `best` and
// `shown`. The charts before it stand in `trail` and `moves`, and stay there; what it writes stands behind them. So
// that nothing is copied, all four are lent. Each settled chart can still be met; nothing is found where one of them
// stays and is surely triggered.
fn hunt(
    masks: &[u64],
    small: &[u8],
    guards: &[u64],
    stays: &[u8],
    trail: &mut [u64],
    moves: &mut [u8; moves::SIZE],
    best: &mut [u8; FOUND_BYTES],
    shown: &mut [u64; 1],
    charts: usize,
    left: usize,
    output: u64,
)
    requires { Tables charts masks.now small.now × Room charts trail.old moves.old
        × Held best.old shown.old × (charts ≤ most_charts) × (left ≤ charts)
        × Guards guards.now stays.now × Passes masks.now trail.old (charts - left) }
    ensures { Hunted masks.now small.now guards.now
        stays.now charts left output trail.old moves.old
        best.old shown.old trail.new moves.new best.new
        shown.new }
{
    let k = charts - left;
    if !settling::all_calm(masks, guards, stays, trail, moves, k) {
        return;
    }
    if left == 0 {
        settle(output, moves, charts, best, shown);
        return;
    }
    let asked = settling::asks(masks, trail, k);
    if !signals::apart(asked.needed, asked.barred) {
        return;
    }
    if !settling::wakes(small, moves, k) {
        if asked.needed != 0 {
            return;
        }
        settling::rest(masks, small, trail, moves, charts, k);
        hunt(
            masks,
            small,
            guards,
            stays,
            trail,
            moves,
            best,
            shown,
            charts,
            left - 1,
            output,
        );
        return;
    }
    let n = small::count(small, k);
    for v in 0..n {
        if settling::fits(masks, trail, asked, k, v) {
            settling::take(masks, small, trail, moves, charts, k, v);
            let more = shown_by(masks, output, k, v);
            hunt(
                masks,
                small,
                guards,
                stays,
                trail,
                moves,
                best,
                shown,
                charts,
                left - 1,
                more,
            );
            if disagree(best) {
                return;
            }
        }
    }
    if triggers::told(stays, k) == 0 {
        return;
    }
    if asked.needed != 0 {
        return;
    }
    settling::stay(masks, small, trail, moves, charts, k);
    hunt(
        masks,
        small,
        guards,
        stays,
        trail,
        moves,
        best,
        shown,
        charts,
        left - 1,
        output,
    );
}

// Nothing found yet.
pub fn none() -> Found
    ensures { result ≡ nothing }
{
    Found {
        has: false,
        agree: false,
        output: 0,
        next: [0; CHARTS],
        places: [settling::NO_PLACE; CHARTS],
    }
}

// What was found, from where it stands.
fn found_in(best: &[u8; FOUND_BYTES], shown: &[u64; 1]) -> Found
    ensures { result ≡ found_in best.now shown.now }
{
    let next = bytes_at(best, 0);
    let taken = bytes_at(best, PLACES);
    Found {
        has: best[HAS] == 1,
        agree: best[AGREE] == 1,
        output: shown[0],
        next,
        places: taken,
    }
}

// What a search over the charts finds, where low is what each is surely offered of the input, with a trail of so many
// masks.
fn hunted<const TRAIL: usize>(
    masks: &[u64],
    small: &[u8],
    guards: &[u64],
    stays: &[u8],
    charts: usize,
    low: [u64; CHARTS],
) -> Found
    requires { Tables charts masks.now small.now × (charts ≤ most_charts) × Guards guards.now stays.now
        × (trail_for charts ≤ TRAIL) × (TRAIL ≤ trail_for most_charts) }
    ensures { result ≡ over (hunts_both masks.now small.now guards.now
        stays.now charts 0 (beginning low)) nothing }
{
    let mut trail = [0u64; TRAIL];
    let mut moves = [0u8; moves::SIZE];
    let mut best = [0u8; FOUND_BYTES];
    let mut shown = [0u64; 1];
    settling::put_row(&mut trail, &low, 0, 0);
    put_column(
        &mut best,
        PLACES,
        &moves,
        0,
        moves::TAKEN,
        settling::NO_PLACE,
    );
    hunt(
        masks, small, guards, stays, &mut trail, &mut moves, &mut best, &mut shown, charts, charts,
        0,
    );
    found_in(&best, &shown)
}

// The same with a shorter trail for fewer charts. `guards` has the triggers of charts that may stay,
// and `stays` how many there are (crate settling, Calm).
pub fn search(
    masks: &[u64],
    small: &[u8],
    guards: &[u64],
    stays: &[u8],
    charts: usize,
    low: [u64; CHARTS],
) -> Found
    requires { Tables charts masks.now small.now × (charts ≤ most_charts) × Guards guards.now stays.now }
    ensures { result ≡ over (hunts_both masks.now small.now guards.now
        stays.now charts 0 (beginning low)) nothing }
{
    if charts <= cells::FEW {
        return hunted::<{ trail::FEW_SIZE }>(masks, small, guards, stays, charts, low);
    }
    if charts <= cells::HALF {
        return hunted::<{ trail::HALF_SIZE }>(masks, small, guards, stays, charts, low);
    }
    hunted::<{ trail::SIZE }>(masks, small, guards, stays, charts, low)
}
