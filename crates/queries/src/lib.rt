// The public calls that ask about a file in bytes. None has a `requires`: what is wrong is refused by number.
#![tactic(auto)]

pub mod file;
pub mod interface;
pub mod lacking;
