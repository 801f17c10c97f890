// The small numbers of a search's tables (specs/Table.antt).
ghost use Rattle.std.specs.Prelude.{◌≡◌, ◌<◌, length, set};
ghost use Rattle.meaning.specs.Numbers.{most_charts, most_from_state};
ghost use Rattle.cells.specs.Table.{small_size, count_cell, state_cell, put_small, put_nearest};
ghost use Rattle.cells.specs.Table.{InRow, to_at, count_at, master_at, slave_state_at, state_at, place_at};

use crate::{CANDIDATES, CHARTS};
use layout::record::Transition;

// Where each part begins. Where candidates lead stands first.
const COUNT: usize = CHARTS * CANDIDATES;

const MASTER: usize = COUNT + CHARTS;

const SLAVE_STATE: usize = MASTER + CHARTS;

const STATE: usize = SLAVE_STATE + CHARTS;

const PLACE: usize = STATE + CHARTS;

pub const SIZE: usize = PLACE + CANDIDATES * CHARTS;

// Where candidate v of chart c leads.
pub fn to(small: &[u8], c: usize, v: usize) -> u8
    requires { (length small.now ≡ small_size) × (c < most_charts) × (v < most_from_state) }
    ensures { result ≡ to_at small.now c v }
{
    small[CANDIDATES * c + v]
}

// Its place in its chart's list.
pub fn place(small: &[u8], c: usize, v: usize) -> u8
    requires { (length small.now ≡ small_size) × (c < most_charts) × (v < most_from_state) }
    ensures { result ≡ place_at small.now c v }
{
    small[PLACE + CANDIDATES * c + v]
}

// Candidate v of chart c is the transition at this place.
pub fn put_candidate(small: &mut [u8], c: usize, v: usize, place: u8, t: Transition)
    requires { (length small.old ≡ small_size) × (c < most_charts) × (v < most_from_state) }
    ensures { small.new ≡ put_small small.old c v place t }
{
    small[CANDIDATES * c + v] = t.to;
    small[PLACE + CANDIDATES * c + v] = place;
}

// How many candidates chart c has.
pub fn count(small: &[u8], c: usize) -> usize
    requires { (length small.now ≡ small_size) × (c < most_charts) }
    ensures { result ≡ count_at small.now c }
{
    crate::wide(small[COUNT + c])
}

pub fn put_count(small: &mut [u8], c: usize, x: u8)
    requires { (length small.old ≡ small_size) × (c < most_charts) }
    ensures { small.new ≡ set small.old (count_cell c) x }
{
    small[COUNT + c] = x;
}

// The master of chart c's nearest enclosing slave; none, if it is no chart's number.
pub fn master(small: &[u8], c: usize) -> usize
    requires { (length small.now ≡ small_size) × (c < most_charts) }
    ensures { result ≡ master_at small.now c }
{
    crate::wide(small[MASTER + c])
}

// The state of its master that this slave decomposes.
pub fn slave_state(small: &[u8], c: usize) -> u8
    requires { (length small.now ≡ small_size) × (c < most_charts) }
    ensures { result ≡ slave_state_at small.now c }
{
    small[SLAVE_STATE + c]
}

// The masters of all charts' nearest slaves, in a row.
pub fn masters(small: &[u8]) -> &[u8]
    requires { length small.now ≡ small_size }
    ensures { InRow result.now (master_at small.now) }
{
    &small[MASTER..SLAVE_STATE]
}

// The states of these slaves, in a row.
pub fn slave_states(small: &[u8]) -> &[u8]
    requires { length small.now ≡ small_size }
    ensures { InRow result.now (slave_state_at small.now) }
{
    &small[SLAVE_STATE..STATE]
}

pub fn put_nearest(small: &mut [u8], c: usize, master: u8, state: u8)
    requires { (length small.old ≡ small_size) × (c < most_charts) }
    ensures { small.new ≡ put_nearest small.old c master state }
{
    small[MASTER + c] = master;
    small[SLAVE_STATE + c] = state;
}

// The present state of chart c.
pub fn state(small: &[u8], c: usize) -> u8
    requires { (length small.now ≡ small_size) × (c < most_charts) }
    ensures { result ≡ state_at small.now c }
{
    small[STATE + c]
}

pub fn put_state(small: &mut [u8], c: usize, x: u8)
    requires { (length small.old ≡ small_size) × (c < most_charts) }
    ensures { small.new ≡ set small.old (state_cell c) x }
{
    small[STATE + c] = x;
}
