// The first pass of the search for strongly connected parts, over one lent work area: the vertices in the order in
// which a depth-first search leaves them. Linear in vertices and edges.
#![tactic(auto)]

mod first;

pub use first::first_pass;
