// The value bins of a point, read from the bytes of a table: which list a value, how many bins a cover bin stands for, the point's auto bins.
#![tactic(auto)]

pub mod bins;
pub mod counts;
pub mod fields;
pub mod points;
pub mod value;
