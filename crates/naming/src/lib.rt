// Refusals 8 to 11 (RULES 3.2), each in its own module: slaves and nodes name what is there, and the nodes make one
// tree.
#![tactic(auto)]

pub mod inside;
pub mod names;
pub mod nodes;
pub mod slaves;
