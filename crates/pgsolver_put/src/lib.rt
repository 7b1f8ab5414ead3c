// A game put into a text that is long enough: the header and the records, whose lines are in `pgsolver_line`.
#![tactic(auto)]

pub mod put;
