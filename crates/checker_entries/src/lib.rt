// The checker's kind 22: entries are edges of winners' own vertices. 25 stands in its place where every entry is none.
// Whose vertex it is, the kind 23 asks here too.
#![tactic(auto)]

mod entries;

pub use entries::{check_entries, is_own};
