// What the general solvers share: the work area at first, which `solver_start` has, their door, which checks and runs,
// and the sets and the strategy as they are written out.
#![tactic(auto)]

mod engine;
mod outputs;
mod unsolved;

pub use engine::{Engine, Solver, solve};
pub use outputs::write_out;
pub use solver_start::prepare;
pub use unsolved::Unsolved;
