// The row of a step (RULES 6.3): the output is in its first 8 bytes. Then where its mark, its refusal and its
// configuration are, and the bytes that a row has at most.
pub const MARK: usize = 8;

pub const REFUSAL: usize = 9;

pub const STATES: usize = 10;

pub const MOST_BYTES: usize = STATES + crate::limits::CHARTS;
