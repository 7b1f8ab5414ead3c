// The levels of priority promotion: nested sets that stand for the regions. A level begins as the one before without
// its vertices of the highest priority. Where they stand, and the passes over their words, are passed on.
#![tactic(auto)]

mod levels;

pub use levels::{begin_level, descend};
pub use promotion_places::{depth_at, held_at, level_at, levels_at, mark_at, priority_at, won_at};
pub use promotion_sets::forget;
