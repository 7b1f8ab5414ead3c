// One byte of a PGSolver text over numbers alone: what its class asks for, done to the small state of a reading.
#![tactic(auto)]

pub mod moves;
