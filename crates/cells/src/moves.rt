// The small numbers of a beginning of a choice (specs/Trail.antt).
ghost use Rattle.std.specs.Prelude.{◌≡◌, ◌+◌, ◌*◌, ◌<◌, length, get_or};
ghost use Rattle.meaning.specs.Numbers.{most_charts};
ghost use Rattle.cells.specs.Trail.{steps, moves_size, next_in, awake_in, place_in, put_move};

use crate::CHARTS;

// The small numbers of a chart, and where among them are its next state, 1 if it is active, and its transition's place.
const STEPS: usize = 3;

pub const NEXT: usize = 0;

const AWAKE: usize = 1;

pub const TAKEN: usize = 2;

pub const SIZE: usize = STEPS * CHARTS;

// What settled chart d has in a column.
pub fn entry(moves: &[u8; SIZE], d: usize, column: usize) -> u8
    requires { (d < most_charts) × (column < steps) }
    ensures { result ≡ get_or moves.now (steps * d + column) 0 }
{
    moves[STEPS * d + column]
}

// Its next state.
pub fn next(moves: &[u8; SIZE], d: usize) -> u8
    requires { d < most_charts }
    ensures { result ≡ next_in moves.now d }
{
    moves[STEPS * d]
}

// 1 if it is active.
pub fn awake(moves: &[u8; SIZE], d: usize) -> u8
    requires { d < most_charts }
    ensures { result ≡ awake_in moves.now d }
{
    moves[STEPS * d + AWAKE]
}

// Its transition's place.
pub fn place(moves: &[u8; SIZE], d: usize) -> u8
    requires { d < most_charts }
    ensures { result ≡ place_in moves.now d }
{
    moves[STEPS * d + TAKEN]
}

pub fn put(moves: &mut [u8; SIZE], k: usize, next: u8, awake: u8, place: u8)
    requires { (length moves.old ≡ moves_size) × (k < most_charts) }
    ensures { moves.new ≡ put_move moves.old k next awake place }
{
    moves[STEPS * k] = next;
    moves[STEPS * k + AWAKE] = awake;
    moves[STEPS * k + TAKEN] = place;
}
