// The phases of probing for bandwidth: the calls on model and cycle side by side.
#![tactic(auto)]

pub mod phases;
pub mod slope;
