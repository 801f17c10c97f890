// A theory: the file of a chart that is typed passes the file check. Definitions and theorems in specs/, and no
// function.
#![tactic(auto)]
