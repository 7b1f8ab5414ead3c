// A text read in portions, its state by value: where a reading begins, and one portion more, which clears the tables at
// once where it is refused.
#![tactic(auto)]

pub mod begin;
pub mod take;
