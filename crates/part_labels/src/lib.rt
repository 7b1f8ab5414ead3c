// The second pass of the search for strongly connected parts: backwards from the last vertex left, each vertex gets the
// label of its part. Linear in vertices and edges.
#![tactic(auto)]

mod second;

pub use second::second_pass;
