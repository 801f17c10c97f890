// A theory: in the tree of an accepted file each node, chart and slave stands once. Definitions and theorems in specs/,
// and no function.
#![tactic(auto)]
