// How far a number that is made from its own rounded predecessor can have moved: specs/Drift.antt. There is no code here.
#![tactic(auto)]
