// R, which each round of priority promotion begins with: the attractor of region p among the unsolved vertices of
// region at most p. It gets region p, and its heads, of priority p, are set apart.
#![tactic(auto)]

mod region;

pub use region::query;
