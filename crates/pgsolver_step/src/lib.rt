// One step of the reader of PGSolver texts with what it writes into the lent tables, and a portion of a text.
#![tactic(auto)]

pub mod portion;
pub mod step;
