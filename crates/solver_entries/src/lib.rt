// The strategy as a solver writes it out: an entry where the owner wins, and none elsewhere.
#![tactic(auto)]

mod entries;

pub use entries::write_strategy;
