// The checks of the public attractor: 9 and 10 by the lengths of what is lent, and 12, a bit that neither set may have.
#![tactic(auto)]

mod checks;

pub use checks::{check_bits, check_sizes};
