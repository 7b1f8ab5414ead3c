// One look of an attractor, at one predecessor entry of a member: whom it completes comes in, with its distance and
// entry, and into the next layer.
#![tactic(auto)]

mod look;

pub use look::touch;
