// What a call that reads a record does beside the reading itself: 9 and 10 first, and the kept numbers afterwards.
#![tactic(auto)]

mod beside;
mod rooms;

pub use beside::write_beside;
pub use rooms::{check_end_rooms, check_record_rooms};
