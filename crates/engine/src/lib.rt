// The public calls on a file in bytes. Step and run are here; the others are passed on from the crates that prove them,
// so that a caller names one crate. None has a `requires`: what is wrong is an `Err` with the refusal.
#![tactic(auto)]

pub mod run;
pub mod step;

pub use queries::{file, interface, lacking};
pub use transforms::{clear, rewriting};
