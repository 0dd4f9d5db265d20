// The calls for C and Rust, as the archive exports them: each is the call of its name in the crate guovssalu, with its
// contract.
#![tactic(auto)]

pub mod conversions;
pub mod filter_run;
pub mod model_run;
pub mod rtt_run;
pub mod slope;
