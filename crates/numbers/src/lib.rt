// Whole numbers and floats: Rust's casts between them, and products taken by way of a float.
// The two formats are no twins by type: one product is cut and one is rounded, and each cast has its own rule and its own proof.
#![tactic(auto)]

pub mod float_to_int;
pub mod int_to_float;
pub mod scaling;

pub use float_to_int::{pattern_round_to_u64, pattern_to_u64, round_to_u64, to_u64};
pub use int_to_float::{to_f32, to_f64};
pub use scaling::{scale, scale_f64};
