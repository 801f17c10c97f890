// A theory: the file that is read from a text holds the chart that was typed. Definitions and theorems in specs/, and
// no function.
#![tactic(auto)]
