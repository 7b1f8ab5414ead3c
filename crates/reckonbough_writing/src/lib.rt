// The doors that write a game out: as a text, and mended.
// Each returns the number of document 01's table, 0 for an answer, and writes place and count through the last two
// references. None has a `requires`.
#![tactic(auto)]

pub mod mending;
pub mod writing_out;
