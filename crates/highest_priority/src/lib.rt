// The highest priority in a set V, the members of V that have it, and the choice that its player's among them make: the
// lowest-numbered successor in V.
#![tactic(auto)]

mod highest;

pub use highest::{collect, extend_lowest, get_highest_prio, one_less};
