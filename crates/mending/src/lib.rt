// A trace mended: which of its lines are kept, and which are listed.
#![tactic(auto)]

pub mod mend;
pub mod sift;

pub use mend::Mend;
