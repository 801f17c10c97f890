// A theory: which text a chart file has, and which files are refused, as definitions and theorems in specs/, and no
// function.
#![tactic(auto)]
