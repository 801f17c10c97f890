// A theory: what the posting of a day, and of days one after another, leaves of each case (RULES 11). No function.
#![tactic(auto)]
