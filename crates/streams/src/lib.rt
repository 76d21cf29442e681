// What the program reads and writes: files, output with a buffer, messages and help.
#![tactic(auto)]

pub mod errors;
pub mod files;
pub mod help;
mod line;
pub mod out;
pub mod text;
