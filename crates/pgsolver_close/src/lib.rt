// Files over a serial line: the end, announced. It is proved for every input, also for words and tables that no call
// left.
#![tactic(auto)]

mod ending;

pub use ending::read_end;
