// The doors that read a text in portions: start, portion and end, with 32 lent words between. Each returns the
// number of document 01's table, 0 for an answer, and writes place and count through the last two references. None
// has a `requires`.
#![tactic(auto)]

pub mod portions;
