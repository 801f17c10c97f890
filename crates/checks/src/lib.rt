// The file check, refusals 1 to 7 (RULES 3.2), each in its own module; 8 to 11 are in the crate naming, and the crate
// opening makes all of them in order.
#![tactic(auto)]

pub mod charts;
pub mod limits;
pub mod refusal;
pub mod trailer;
pub mod zeros;
