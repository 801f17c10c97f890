// A theory: how the tree of a file folds into masks, and which choices a search may leave out. Definitions and theorems
// in specs/, no function.
#![tactic(auto)]
