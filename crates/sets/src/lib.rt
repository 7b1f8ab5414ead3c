// Sets as words of 64 bits, vertex v at bit v % 64 of word v / 64: the operations of the Rust's BitVec that the
// solvers use. Each contract says what every bit is afterwards, bits at n and above included. Those that change a set,
// or look at one bit, stand in crates below and are passed on.
#![tactic(auto)]

mod whole;

pub use set_bits::{contains, in_difference, insert};
pub use set_filling::{clear, copy_from, fill};
pub use set_pairs::{copy_with, difference_with, union_with};
pub use whole::{is_empty, size};
