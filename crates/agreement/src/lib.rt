// A theory: the rewritten file steps as the file does, and is a file again. Definitions and theorems in specs/, no
// function.
#![tactic(auto)]
