// The line that the program prints, put into a lent array piece by piece. Each function gives the place after what it
// has put, and every other byte stays.
#![tactic(auto)]

mod line;

pub use line::{refused_line, solved_line};
