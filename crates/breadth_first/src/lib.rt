// A breadth-first search against the links, over the work area of the search for parts: each vertex that is found
// gets a word that says where to go on, so that the way from it to where the search began can be followed. Linear in
// vertices and edges.
#![tactic(auto)]

mod round;
mod search;
mod way;

pub use round::spread_round;
pub use search::spread;
pub use way::follow;
