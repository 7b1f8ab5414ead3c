// The steps by which tables that wait are put in order: targets set aside, their records marked, and one record placed.
#![tactic(auto)]

mod steps;

pub use steps::{mark, place_record, set_aside};
