// What mending writes first: the new offsets and targets.
#![tactic(auto)]

mod edges;

pub use edges::write_edges;
