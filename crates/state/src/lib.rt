// What a state, a cycle, an event, a sampler's answer and the parameters are; their bounds, and the table of refusals.
#![tactic(auto)]

pub mod bounds;
pub mod congestion_event;
pub mod cycle;
pub mod faults;
pub mod network_model;
pub mod params;
pub mod parts;
pub mod refusals;

pub use cycle::{Cycle, CyclePhase};
pub use network_model::NetworkModel;
pub use params::Params;
