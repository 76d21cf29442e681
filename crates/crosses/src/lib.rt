// The flags, kinds and items of the counters of all crosses, and the marks of their products.
#![tactic(auto)]

pub mod all;
pub mod bins;
pub mod labels;
pub mod marked;
pub mod order;
pub mod own;
