// One call of a run: decoded, made, and its answer written.
#![tactic(auto)]

pub mod one_call;
mod outcome;
