// Which argument of a call of a run is at fault, from its words.
#![tactic(auto)]

mod fits;
pub mod places;
