// The doors of a game record: its fresh count, and its three edits.
// Each returns the number of the documents' table, 0 for an answer, and writes place and count through the last two
// references. None has a `requires`.
#![tactic(auto)]

pub mod editing;
