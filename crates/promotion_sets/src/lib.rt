// A set whose members lose their entries. One set without another, the other pass over the words of a level that
// promotion makes, is passed on.
#![tactic(auto)]

mod level;

pub use level::forget;
pub use set_difference::without;
