// One layer of the attractor, taken word by word. It is a function of its own, so that the turn to the next layer is a
// jump: inside the loop over words it would be a choice between two places that every pop waits for.
#![tactic(auto)]

mod one_layer;

pub use one_layer::take_layer;
