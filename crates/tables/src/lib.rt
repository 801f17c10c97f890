// A theory: that a search over tables that hold a file's wiring and candidates finds what a step means. No function.
#![tactic(auto)]
