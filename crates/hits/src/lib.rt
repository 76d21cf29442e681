// The places of the points' counters that a sample hits.
#![tactic(auto)]

pub mod all;
pub mod bins;
mod covers;
mod plains;
pub mod transitions;
