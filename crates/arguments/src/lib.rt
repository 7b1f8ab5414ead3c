// What the program's arguments ask for: the budget of each engine, or 36. The engines themselves are not asked here.
#![tactic(auto)]

mod arguments;

pub use arguments::ask;
