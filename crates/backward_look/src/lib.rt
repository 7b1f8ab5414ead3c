// A look against the links: each vertex without a label that leads to one just taken gets its label and goes to the end
// of the queue. The search for a part and the search by rounds both go by it.
#![tactic(auto)]

mod look;

pub use look::{look_back, put};
