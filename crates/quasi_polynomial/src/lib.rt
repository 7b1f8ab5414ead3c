// The second opinion: the quasi-polynomial recursion of Parys on all vertices, with both precisions the number of
// vertices. Its sets are the winning sets of every accepted game.
#![tactic(auto)]

mod checks;
mod door;

pub use door::solve_quasi_polynomial;
