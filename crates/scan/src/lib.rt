// Reading the notation of charts without a stack, as definitions and theorems in specs/; in code only which bytes are
// digits, blanks and brackets.
#![tactic(auto)]

pub mod bytes;
