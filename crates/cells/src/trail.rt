// The masks of a beginning of a choice (specs/Trail.antt).
ghost use Rattle.std.specs.Prelude.{◌≡◌, ◌+◌, ◌≤◌, ◌<◌, length, set};
ghost use Rattle.meaning.specs.Numbers.{most_charts};
ghost use Rattle.cells.specs.Trail.{trail_for, low_cell, low_in, needed_in, barred_in, put_asked};

use crate::{CHARTS, FEW, HALF};

// The masks of a chart, and where among them is what it needs and bars.
const WIDTH: usize = CHARTS + 2;

const NEEDS: usize = CHARTS;

const BARS: usize = CHARTS + 1;

// How many masks there are for all charts, and for fewer. Behind the last chart stands one row more.
pub const SIZE: usize = WIDTH * CHARTS + CHARTS;

pub const HALF_SIZE: usize = WIDTH * HALF + CHARTS;

pub const FEW_SIZE: usize = WIDTH * FEW + CHARTS;

// What chart c is surely offered before chart k is settled.
pub fn low(trail: &[u64], k: usize, c: usize) -> u64
    requires { (trail_for k ≤ length trail.now) × (k ≤ most_charts) × (c < most_charts) }
    ensures { result ≡ low_in trail.now k c }
{
    trail[WIDTH * k + c]
}

pub fn put_low(trail: &mut [u64], k: usize, c: usize, x: u64)
    requires { (trail_for k ≤ length trail.old) × (k ≤ most_charts) × (c < most_charts) }
    ensures { trail.new ≡ set trail.old (low_cell k c) x }
{
    trail[WIDTH * k + c] = x;
}

// What settled chart d needs, and what it bars.
pub fn needed(trail: &[u64], d: usize) -> u64
    requires { (trail_for (d + 1) ≤ length trail.now) × (d < most_charts) }
    ensures { result ≡ needed_in trail.now d }
{
    trail[WIDTH * d + NEEDS]
}

pub fn barred(trail: &[u64], d: usize) -> u64
    requires { (trail_for (d + 1) ≤ length trail.now) × (d < most_charts) }
    ensures { result ≡ barred_in trail.now d }
{
    trail[WIDTH * d + BARS]
}

pub fn put_asked(trail: &mut [u64], k: usize, needed: u64, barred: u64)
    requires { (trail_for (k + 1) ≤ length trail.old) × (k < most_charts) }
    ensures { trail.new ≡ put_asked trail.old k needed barred }
{
    trail[WIDTH * k + NEEDS] = needed;
    trail[WIDTH * k + BARS] = barred;
}
