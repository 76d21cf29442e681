// Reads of the table's bytes, verdicts on them, and section counts: what every part of the table's check is built on.
#![tactic(auto)]

pub mod bytes;
pub mod choices;
pub mod counts;
pub mod guards;
pub mod kinds;
pub mod records;
pub mod sums;
pub mod verdicts;
