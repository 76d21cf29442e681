// The figures of a register: each item's coverage, and the group's.
#![tactic(auto)]

pub mod figure;
pub mod items;
pub mod records;
