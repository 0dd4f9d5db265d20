// The calls that are no send and no event, each by its number, on the numbers that it is given.
#![tactic(auto)]

pub mod ask;
pub mod change;
pub mod enter;
pub mod question;
mod unknown;
