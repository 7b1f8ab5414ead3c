// The pieces of a pass of the quasi-polynomial recursion, over the sets of its level: the attractors, how the passes
// stand, and what a pass leaves. The recursion itself is in `quasi_polynomial`.
#![tactic(auto)]

mod level;
mod passes;
mod places;

pub use level::{attract_top, give_up, highest_at, settle, size_at, turn_over};
pub use passes::{Passes, Sharp, Stage};
pub use places::next_level;
