// The two solvers of the quasi-polynomial recursion, one for Even and one for Odd, which call each other on smaller
// games. The public solver is in `quasi_polynomial`.
#![tactic(auto)]

mod recursion;

pub use recursion::solve_even;
