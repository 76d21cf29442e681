// The check of sections 1 to 3 of a table: points, value bins, and the value bins' ranges.
#![tactic(auto)]

pub mod bins;
pub mod points;
pub mod value_ranges;
