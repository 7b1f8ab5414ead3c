// The three demands, stated of what the doors themselves promise. There is no code here: specs/Demands.antt is the page
// to read.
#![tactic(auto)]
