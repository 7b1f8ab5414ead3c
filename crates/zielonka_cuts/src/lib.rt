// The two cuts of a call of Zielonka's recursion: an attractor is drawn, and V without it goes to the next level. The
// other pieces of a call are in `zielonka_level`.
#![tactic(auto)]

mod cuts;

pub use cuts::{attract_highest, attract_lost};
