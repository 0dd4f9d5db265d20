// What the port counts in: moments and lengths of time, bandwidth, and the refusals of its calls.
#![tactic(auto)]

pub mod bandwidth;
pub mod refusal;
pub mod time;

pub use bandwidth::Bandwidth;
pub use refusal::Refusal;
pub use time::{Duration, Moment};
