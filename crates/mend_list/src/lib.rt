// What mending writes last: the list of what was dropped and altered.
#![tactic(auto)]

mod list;

pub use list::write_list;
