// The tables of a search: where each cell stands, by chart and candidate. No other crate computes an index into them or
// says how long they are. What the cells mean is in specs/.
#![tactic(auto)]

ghost use Rattle.std.specs.Prelude.{◌≡◌};

pub mod masks;
pub mod moves;
pub mod small;
pub mod trail;
pub mod triggers;

// The charts that tables have room for, and the candidates of each.
pub const CHARTS: usize = layout::limits::CHARTS;

pub const CANDIDATES: usize = layout::limits::MOST_FROM_STATE as usize;

// Tables of masks for few charts are shorter than those for all, and begin alike: to zero them takes a good part of a
// step.
pub const PAIR: usize = 2;

pub const FEW: usize = 4;

pub const HALF: usize = CHARTS / 2;

// A small number, to count with.
fn wide(x: u8) -> usize
    ensures { result ≡ x }
{
    x as usize
}
