// Show me the loop: for a solitaire game and a vertex a path to a cycle of the owner's parity, and the cycle. Both
// are the shortest that one search each finds; nothing is written before the run is known.
#![tactic(auto)]

mod checks;
mod door;
mod lists;

pub use door::show_loop;
