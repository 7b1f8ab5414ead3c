// What mending does to one vertex: how many of its edges stay, and its priority.
#![tactic(auto)]

pub mod counts;
pub mod priorities;
