// What is left of the parts of each point, cut into pieces, and the plan of the values built.
#![tactic(auto)]

pub mod build;
pub mod cuts;
