// The windowed filter, run over pairs of a time and a sample in bytes.
#![tactic(auto)]

pub mod pairs;
