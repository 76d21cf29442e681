// The points of an accepted table: their readings, and the flags, kinds and items of their counters and cover bins.
#![tactic(auto)]

pub mod counts;
pub mod items;
pub mod kinds;
pub mod readings;
pub mod spread;
pub mod transitions;
