// The places of the crosses' counters that a sample hits, as a list. Only the hit products are looked at.
#![tactic(auto)]

pub mod all;
pub mod counts;
pub mod cross;
pub mod marks;
pub mod numbers;
