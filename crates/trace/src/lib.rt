// A trace replayed: each line is a call of the model, and is answered by a row.
#![tactic(auto)]

pub mod made;
pub mod placed;
pub mod replay;
pub mod stream;
pub mod tally;

pub use replay::Replay;
pub use tally::Tally;
