// Reading a whole PGSolver text into lent tables, for every input: the rooms' checks, then a start, one portion and the
// end.
#![tactic(auto)]

mod door;

pub use door::{read, read_tables};
