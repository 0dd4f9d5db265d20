// The round-trip estimator, run over calls in bytes.
#![tactic(auto)]

pub mod trips;
