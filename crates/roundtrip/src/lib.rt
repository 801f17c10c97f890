// A theory: a file that is written as text and read again is the same chart file, and its text the same text.
// Definitions and theorems in specs/, and no function.
#![tactic(auto)]
