// Files over a serial line: start and a portion, with the small part of the reading in lent words between them and all
// else in the tables. Each is proved for every input, also for words and tables that no call left.
#![tactic(auto)]

mod portion;
mod starting;

pub use portion::read_portion;
pub use starting::read_start;
