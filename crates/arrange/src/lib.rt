// Once all records wait in the tables and their identifiers are right: every table put in order by identifier.
#![tactic(auto)]

mod order;

pub use order::arrange;
