// Limits of a file (RULES 2.8) and bytes of its records (RULES 2), in the lowest crate that has files. Each is written
// here once.

pub const MOST_CHARTS: u8 = 16;

pub const MOST_SLAVES: u8 = 15;

pub const MOST_NODES: u8 = 64;

pub const MOST_TRANSITIONS: u16 = 1024;
// In a chart.
pub const MOST_STATES: u8 = 16;

pub const MOST_IN_CHART: u8 = 64;
// Transitions from one state.
pub const MOST_FROM_STATE: u8 = 8;

// As sizes of arrays: one entry for each chart, which is room for each slave too, and one for each node.
pub const CHARTS: usize = MOST_CHARTS as usize;

pub const NODES: usize = MOST_NODES as usize;

pub const HEAD_BYTES: usize = 24;

pub const TRANSITION_BYTES: usize = 28;

pub const SLAVE_BYTES: usize = 4;

pub const NODE_BYTES: usize = 20;

pub const TRAILER_BYTES: usize = 12;
