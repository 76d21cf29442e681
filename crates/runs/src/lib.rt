// The runs of all sequences: what a sample does to them, and the lengths at which they match.
#![tactic(auto)]

pub mod rows;
pub mod take;
