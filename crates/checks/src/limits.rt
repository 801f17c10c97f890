// The numbers of the rules that have a name: editions (RULES 7.1), limits and bytes of a record, whose values stand in
// the crate layout. Each of the rest is written here once. Refusals are in the module refusal.

pub const FIRST_EDITION: u8 = 1;

pub const STAY_EDITION: u8 = 2;

pub const MOST_CHARTS: u8 = layout::limits::MOST_CHARTS;

pub const MOST_SLAVES: u8 = layout::limits::MOST_SLAVES;

pub const MOST_NODES: u8 = layout::limits::MOST_NODES;

pub const MOST_TRANSITIONS: u16 = layout::limits::MOST_TRANSITIONS;
// In a chart.
pub const MOST_STATES: u8 = layout::limits::MOST_STATES;

pub const MOST_IN_CHART: u8 = layout::limits::MOST_IN_CHART;
// Transitions from one state.
pub const MOST_FROM_STATE: u8 = layout::limits::MOST_FROM_STATE;
// Open choices of a step.
pub const MOST_OPEN: u64 = 16777216;
// Bytes on the day program's standard input.
pub const MOST_INPUT: usize = 65536;

pub const HEAD_BYTES: usize = layout::limits::HEAD_BYTES;

pub const TRANSITION_BYTES: usize = layout::limits::TRANSITION_BYTES;

pub const SLAVE_BYTES: usize = layout::limits::SLAVE_BYTES;

pub const NODE_BYTES: usize = layout::limits::NODE_BYTES;

pub const TRAILER_BYTES: usize = layout::limits::TRAILER_BYTES;

// No refusal, where an answer is a number: what a call for C returns, and a row's byte.
pub const ACCEPTED: u8 = 0;
