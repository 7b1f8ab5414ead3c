// A game record from a text: the reader's tables, and beside them the kept numbers, a fresh count of the priorities
// that were read.
#![tactic(auto)]

mod ending;
mod whole;

pub use ending::read_end;
pub use whole::read;
