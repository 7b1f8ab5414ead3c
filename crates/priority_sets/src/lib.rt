// A set for each priority in the work area, 256 sets of s words each: they are made once, and the members of a set that
// have priority p are then what it and p's set have in common (`set_difference::meet`).
#![tactic(auto)]

mod sets_of;

pub use sets_of::{behind_sets, make, set_at};
