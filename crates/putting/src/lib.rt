// Bytes put into a lent array: a word, a decimal number, the winners. Each function gives the place after what it has
// put, and every other byte stays.
#![tactic(auto)]

mod put;

pub use put::{put_number, put_winners, put_word};
