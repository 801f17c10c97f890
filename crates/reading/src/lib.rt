// A theory: which chart file a text means, and which texts are refused, as definitions and theorems in specs/. In code
// only the numbers of the notation that have a name (docs/NOTATION.md), each written here once.
#![tactic(auto)]

// A chart is nested so deep at most.
pub const MOST_DEPTH: u8 = 16;

// Charts are c0 to c15, states q0 to q15.
pub const NAMED_CHARTS: u8 = 16;

pub const NAMED_STATES: u8 = 16;
