// A chart file in bytes (RULES 2): numbers, records, and where each record stands in the body; limits; and where a row
// has its fields.
#![tactic(auto)]

pub mod body;
pub mod limits;
pub mod number;
pub mod record;
pub mod row;
