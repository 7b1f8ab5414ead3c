// What every door tells: the number of its answer, with place and count through its last two references.
#![tactic(auto)]

mod answer;

pub use answer::tell;
