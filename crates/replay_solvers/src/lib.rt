// The solvers on one game of the fixed list, of at most 12 vertices, held to what the oracle says of it: one does not
// differ only where the rules say what the oracle says.
#![tactic(auto)]

mod differs;

pub use differs::{Solver, solitaire_differs, solver_differs};
