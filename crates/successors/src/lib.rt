// The choice of an edge where any that ends in a set would do: the lowest-numbered successor, so that it is the same
// each time.
#![tactic(auto)]

pub mod inside;
