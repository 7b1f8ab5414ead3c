// The search from the vertices of exactly one priority that a row of words marks: who reaches one of them, and the
// shortest way there.
#![tactic(auto)]

mod heads;

pub use heads::spread_heads;
