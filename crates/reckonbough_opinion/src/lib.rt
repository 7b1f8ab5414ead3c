// The door of the second opinion. It returns the number of document 01's table, 0 for an answer, and writes place and
// count through the last two references. It has no `requires`.
#![tactic(auto)]

pub mod opinion;
