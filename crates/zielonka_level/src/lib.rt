// The pieces of a call of Zielonka's recursion. A level is the set V alone; what Odd won stands once, for the whole
// recursion: where each stands, and what each player wins. The cuts are in `zielonka_cuts`, the search for the highest
// priority in `highest_priority`, the recursion itself in `zielonka_recursion`.
#![tactic(auto)]

mod level;
mod places;

pub use level::{give, lost_nothing, opponent_of, win_everything};
pub use places::{drawn_at, levels_at, odd_at};
