// The state in words: the model, the cycle, and whether words encode a state.
#![tactic(auto)]

pub mod cycle;
pub mod form;
pub mod network_model;
pub mod state_words;
