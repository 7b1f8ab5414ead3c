// The links that a search over the tables follows, and the tests on them. What the search keeps in its rows of words is
// said here too.
#![tactic(auto)]

mod links;

pub use links::Graph;
