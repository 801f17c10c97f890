// A theory: the typed notation of charts, as definitions and theorems in specs/, and no function.
#![tactic(auto)]
