// The checker's kind 23, of one vertex at a time: where its edges lead. The kinds before it stand in
// `checker_partition` and `checker_entries`.
#![tactic(auto)]

mod sides;

pub use sides::check_sides;
