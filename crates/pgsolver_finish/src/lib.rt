// The last step of a reading: document 01's list where it is asked for, and what a refusal leaves.
#![tactic(auto)]

pub mod finish;
