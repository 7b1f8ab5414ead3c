// The public solver by Zielonka's recursion, for every input: its checks, a run of the recursion under a budget, and
// what is written out. The recursion itself is in `zielonka_recursion`.
#![tactic(auto)]

mod door;

pub use door::{Zielonka, solve_zielonka};
