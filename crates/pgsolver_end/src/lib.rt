// The end of a text: what the bytes that came say, their records put in order, and then document 01's list. It stays
// inside the tables whatever state and tables it is handed.
#![tactic(auto)]

pub mod end;
pub mod tell;
