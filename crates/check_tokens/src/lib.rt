// The check of a select's tokens: each by its rules, and together one whole expression.
#![tactic(auto)]

pub mod expressions;
pub mod tokens;
