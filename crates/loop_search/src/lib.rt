// The search for a loop: the first priority of the player's parity for which a vertex can reach one of exactly that
// priority in a good part, and the shortest way there. Linear in the tables for each priority.
#![tactic(auto)]

mod priority;

pub use priority::seek;
