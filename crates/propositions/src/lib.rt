// A theory: two propositions of the paper on mu-Charts, for chart files. Definitions and theorems in specs/, no
// function.
#![tactic(auto)]
