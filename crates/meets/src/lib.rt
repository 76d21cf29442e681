// Which parts of a point still hold a value from lo to hi, by the pieces of the plan.
#![tactic(auto)]

pub mod ask;
pub mod met;
pub mod plan;
