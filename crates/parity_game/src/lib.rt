// The tagged numbers of the Rust, answers and refusals, the limits, how many words a set and the work area have, and
// the checks 9 and 10. The tables themselves are checked in `checks_in_order` and `table_checks`.
#![tactic(auto)]

mod limits;
mod player;
mod refusal;
mod sizes;

pub use limits::{HIGHEST_PRIORITY, MOST_EDGES, MOST_VERTICES, NO_DISTANCE, NO_ENTRY, PRIORITIES};
pub use player::{Player, Priority, VertexIndex};
pub use refusal::{Answer, Checked, Refusal};
pub use sizes::{check_set, check_table, check_work, set_words, work_words};
