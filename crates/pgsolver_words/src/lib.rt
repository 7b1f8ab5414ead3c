// What is small in a reading, kept in lent words between portions: where the reading is, or the outcome that is there.
// Words that no reading left are taken as some reading or outcome.
#![tactic(auto)]

pub mod phases;
pub mod words;
