// One line of a text: the record of a vertex, put into a text that is long enough, piece by piece.
#![tactic(auto)]

mod line;

pub use line::{put_ended, put_record};
