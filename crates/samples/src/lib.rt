// What an accepted sample writes: run words, counts, unknown counts, the sample word and the report.
#![tactic(auto)]

pub mod adds;
pub mod counts;
pub mod listed;
pub mod prepare;
pub mod write;
