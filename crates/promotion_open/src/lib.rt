// Whether R, the region drawn in, is open.
#![tactic(auto)]

mod open;

pub use open::is_open;
