// A row of a replay, and an entry of a list, written into bytes.
#![tactic(auto)]

mod digits;
pub mod entry;
pub mod row;
