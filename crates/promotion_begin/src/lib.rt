// The first state of priority promotion: nobody has won anything, the sets of the priorities are made, and the first
// level, which has all vertices, begins.
#![tactic(auto)]

mod start;

pub use start::begin;
