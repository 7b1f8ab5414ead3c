// What happens to R once it is closed: missing entries are filled, then R goes over to a higher region, or it is a
// dominion and is solved.
#![tactic(auto)]

pub mod dominion;
pub mod fill;
pub mod promote;
