// The doors that look at tables alone: their check, and compaction.
// Each returns the number of document 01's table, 0 for an answer, and writes place and count through the last two
// references. None has a `requires`.
#![tactic(auto)]

pub mod tables;
