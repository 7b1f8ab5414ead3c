// The door that shows a run: a path to a cycle, and the cycle. It returns the number of document 01's table, 0 for an
// answer, and writes the path's length, place and count through the last three references. It has no `requires`.
#![tactic(auto)]

pub mod looping;
