// One set taken into another, word by word. Both are parts of one slice, `into` and `from`, of `s` words each: the
// solvers keep all their sets in one work area.
#![tactic(auto)]

mod pairs;

pub use pairs::{copy_with, difference_with, union_with};
