// The masks of a search's tables (specs/Table.antt).
ghost use Rattle.std.specs.Prelude.{◌≡◌, ◌+◌, ◌≤◌, ◌<◌, length, set};
ghost use Rattle.meaning.specs.Numbers.{most_charts, most_from_state};
ghost use Rattle.cells.specs.Table.{masks_for, up_cell, back_cell, ahead_cell, up_at, back_at, ahead_at};
ghost use Rattle.cells.specs.Table.{needed_at, barred_at, action_at, put_masks};

use crate::{CANDIDATES, CHARTS, FEW, HALF, PAIR};
use layout::record::Transition;

// Where a chart's block has each of its parts. What may still be offered stands first.
const BACK: usize = CHARTS;

const UP: usize = BACK + CHARTS;

const NEEDED: usize = UP + 1;

const BARRED: usize = NEEDED + CANDIDATES;

const ACTION: usize = BARRED + CANDIDATES;

const BLOCK: usize = ACTION + CANDIDATES;

// How many masks there are for all charts, and for fewer. Behind the last chart stands one row more.
pub const SIZE: usize = BLOCK * CHARTS + CHARTS;

pub const HALF_SIZE: usize = BLOCK * HALF + CHARTS;

pub const FEW_SIZE: usize = BLOCK * FEW + CHARTS;

pub const PAIR_SIZE: usize = BLOCK * PAIR + CHARTS;

// What of chart d's action comes out of the whole.
pub fn up(masks: &[u64], d: usize) -> u64
    requires { (masks_for (d + 1) ≤ length masks.now) × (d < most_charts) }
    ensures { result ≡ up_at masks.now d }
{
    masks[BLOCK * d + UP]
}

pub fn put_up(masks: &mut [u64], d: usize, x: u64)
    requires { (masks_for (d + 1) ≤ length masks.old) × (d < most_charts) }
    ensures { masks.new ≡ set masks.old (up_cell d) x }
{
    masks[BLOCK * d + UP] = x;
}

// What chart c is offered of chart d's action.
pub fn back(masks: &[u64], c: usize, d: usize) -> u64
    requires { (masks_for (d + 1) ≤ length masks.now) × (c < most_charts) × (d < most_charts) }
    ensures { result ≡ back_at masks.now c d }
{
    masks[BLOCK * d + BACK + c]
}

pub fn put_back(masks: &mut [u64], c: usize, d: usize, x: u64)
    requires { (masks_for (d + 1) ≤ length masks.old) × (c < most_charts) × (d < most_charts) }
    ensures { masks.new ≡ set masks.old (back_cell c d) x }
{
    masks[BLOCK * d + BACK + c] = x;
}

// What the charts from k on may still put in for chart c.
pub fn ahead(masks: &[u64], k: usize, c: usize) -> u64
    requires { (masks_for k ≤ length masks.now) × (k ≤ most_charts) × (c < most_charts) }
    ensures { result ≡ ahead_at masks.now k c }
{
    masks[BLOCK * k + c]
}

pub fn put_ahead(masks: &mut [u64], k: usize, c: usize, x: u64)
    requires { (masks_for k ≤ length masks.old) × (k ≤ most_charts) × (c < most_charts) }
    ensures { masks.new ≡ set masks.old (ahead_cell k c) x }
{
    masks[BLOCK * k + c] = x;
}

// What candidate v of chart c needs, bars and puts out.
pub fn needed(masks: &[u64], c: usize, v: usize) -> u64
    requires { (masks_for (c + 1) ≤ length masks.now) × (c < most_charts) × (v < most_from_state) }
    ensures { result ≡ needed_at masks.now c v }
{
    masks[BLOCK * c + NEEDED + v]
}

pub fn barred(masks: &[u64], c: usize, v: usize) -> u64
    requires { (masks_for (c + 1) ≤ length masks.now) × (c < most_charts) × (v < most_from_state) }
    ensures { result ≡ barred_at masks.now c v }
{
    masks[BLOCK * c + BARRED + v]
}

pub fn action(masks: &[u64], c: usize, v: usize) -> u64
    requires { (masks_for (c + 1) ≤ length masks.now) × (c < most_charts) × (v < most_from_state) }
    ensures { result ≡ action_at masks.now c v }
{
    masks[BLOCK * c + ACTION + v]
}

// Candidate v of chart c is the transition.
pub fn put_candidate(masks: &mut [u64], c: usize, v: usize, t: Transition)
    requires { (masks_for (c + 1) ≤ length masks.old) × (c < most_charts) × (v < most_from_state) }
    ensures { masks.new ≡ put_masks masks.old c v t }
{
    masks[BLOCK * c + NEEDED + v] = t.needed;
    masks[BLOCK * c + BARRED + v] = t.barred;
    masks[BLOCK * c + ACTION + v] = t.action;
}
