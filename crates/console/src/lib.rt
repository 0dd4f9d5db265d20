// What the programs do with standard input and standard error: a trace's header and pieces are read, and things are said.
// What is read, no contract can say.
#![tactic(auto)]

pub mod input;
pub mod pieces;
pub mod said;
