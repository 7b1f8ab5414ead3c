// What the public attractor writes beside its result, of the words that the attractor left: the strategy and the
// distances.
#![tactic(auto)]

pub mod distances;
pub mod strategy;
