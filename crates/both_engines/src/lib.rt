// Both engines on one game, and the line that the program prints for what they gave.
#![tactic(auto)]

mod tables;

pub use tables::solve_tables;
