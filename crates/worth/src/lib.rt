// What the estimates of a windowed filter are worth: specs/Worth.antt. There is no code here.
#![tactic(auto)]
