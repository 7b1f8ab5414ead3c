// Where R, what the players have won, the number of the current level, a promotion's mark and the levels of priority
// promotion stand in the work area, and what nested sets there mean for the regions.
#![tactic(auto)]

mod places;

pub use places::{depth_at, held_at, level_at, levels_at, mark_at, priority_at, won_at};
