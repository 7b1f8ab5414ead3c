// The walk over a set's members, found by words: trailing zeros of each word give the next one.
#![tactic(auto)]

mod members;

pub use members::Members;
