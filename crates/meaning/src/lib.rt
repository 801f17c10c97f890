// A theory: the meaning of chart files, as definitions and theorems in specs/, and no function.
#![tactic(auto)]
