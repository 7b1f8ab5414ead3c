// The highest level above R, the region drawn in, that the opponent can go to from it.
#![tactic(auto)]

mod escape;

pub use escape::best_escape;
