// The public calls that make a file of a file in bytes. None has a `requires`: what is wrong is refused by number.
#![tactic(auto)]

pub mod clear;
pub mod rewriting;
