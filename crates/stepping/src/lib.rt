// A step of a file's body that passed 1 to 11, from a configuration that may be wrong. The engine's calls open a file
// and come here.
#![tactic(auto)]

pub mod step;
