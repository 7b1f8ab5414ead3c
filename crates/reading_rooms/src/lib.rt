// The two ends of reading a text: before all, whether the rooms fit; once all records wait in the tables, whether their
// identifiers are right; and, on a refusal, every table cleared.
#![tactic(auto)]

mod checks;
mod clear;

pub use checks::{SEEN, check_identifiers, check_rooms};
pub use clear::{clear_rooms, clear_tables, clear_work};
