// The solitaire solver, after solitaire_game.rs: all owners are equal, and the answer is every vertex from which a good
// part of the owner's parity can be reached.
#![tactic(auto)]

mod checks;
mod door;
mod marking;

pub use checks::{check_owners_equal, sole_owner};
pub use door::solve_solitaire_game;
