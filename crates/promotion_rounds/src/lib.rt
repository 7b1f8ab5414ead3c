// The rounds of priority promotion on tables already accepted: one round, and rounds until all is solved.
#![tactic(auto)]

pub mod round;
pub mod solve;
pub mod step;
