// A layer: a set of at most 64 words, and one word more that says which of its words are not 0, so that the
// lowest word with a member is found without a search and an empty stretch costs nothing.
#![tactic(auto)]

pub mod marked;
