// The public attractor, for every input: it checks all that it takes, works in the first W words of the work area, and
// writes only when it answers.
#![tactic(auto)]

mod door;

pub use door::attractor;
