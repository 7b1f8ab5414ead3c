// The small state of reading a PGSolver text, the class of a byte, and what that class asks for in each phase.
#![tactic(auto)]

pub mod acts;
pub mod class;
pub mod state;
