// The calls for C and Rust, on numbers and byte slices. Every one takes any numbers and any slices.
#![tactic(auto)]

pub mod conversions;
pub mod filter_run;
pub mod model_run;
pub mod rtt_run;
pub mod slope;
