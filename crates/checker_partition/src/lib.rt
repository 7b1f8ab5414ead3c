// The checker's kind 21: the two sets split the vertices. It is told bit by bit, bits at n and above included.
#![tactic(auto)]

mod partition;

pub use partition::check_partition;
