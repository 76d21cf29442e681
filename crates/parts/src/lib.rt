// The parts (cover bins after expansion) of a point as rows.
#![tactic(auto)]

pub mod built;
pub mod points;
pub mod rows;
pub mod settled;
