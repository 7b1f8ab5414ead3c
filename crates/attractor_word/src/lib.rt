// The members of one word of a layer, taken one after another by the attractor's step. What the attractor promises is
// said here too, since each step keeps a part of it.
#![tactic(auto)]

mod word;

pub use word::take_word;
