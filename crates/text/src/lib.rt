// A line of a trace, read from its bytes.
#![tactic(auto)]

mod fields;
pub mod find;
pub mod line;
mod number;
pub mod word;
