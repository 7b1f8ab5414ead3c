// Priority promotion after priority_promotion.rs, over one lent work area. Behind the attractor's part of it stand a
// set for each priority, then R, what Even and what Odd have won, the number of the current level, the levels'
// priorities, and the levels: nested sets that stand for the regions.
#![tactic(auto)]

mod door;

pub use door::{PriorityPromotion, solve_priority_promotion};
