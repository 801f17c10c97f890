// The text of an accepted file, written at a place of a buffer. Each function gives the place behind what it wrote, and
// writes only where the buffer has room: a byte past its end is counted. So an empty buffer counts.
#![tactic(auto)]

pub mod charts;
pub mod guards;
pub mod sets;
pub mod signs;
pub mod states;
