// The checks 1 to 8 one after another, for the number and the place of the first that applies. The doors call
// `table_checks`, which comes here only for tables that a plain pass does not find well.
#![tactic(auto)]

mod checks;

pub use checks::first_refusal;
pub use edge_checks::check_offsets;
pub use size_checks::check_lengths;
pub use vertex_checks::{check_owners, check_priorities};
