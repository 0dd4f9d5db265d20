// What a call is given, in words: the event's record, the sampler's answer and the parameters.
#![tactic(auto)]

pub mod congestion_event;
pub mod params;
pub mod sample;
