// One member of a set of words: asked for, or added. The laws of a word's digits that all operations on sets go by are
// said here too.
#![tactic(auto)]

mod bits;

pub use bits::{contains, in_difference, insert};
