// What every solver begins with: the predecessor table, and the set of all vertices.
#![tactic(auto)]

mod preparing;

pub use preparing::prepare;
