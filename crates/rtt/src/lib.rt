// The round-trip estimator: latest, minimum, smoothed and variation.
#![tactic(auto)]

pub mod rtt;

pub use rtt::RttStats;
