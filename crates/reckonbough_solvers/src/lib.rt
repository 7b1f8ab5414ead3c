// The doors of the two solvers.
// Each takes a game record, returns the number of document 01's table, 0 for an answer, and writes place and count
// through the last two references. None has a `requires`.
#![tactic(auto)]

mod door;
pub mod promotion;
pub mod recursion;
