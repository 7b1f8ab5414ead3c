// One step of an attractor: a member is taken, and each of its predecessor entries is looked at, by `attractor_look`.
#![tactic(auto)]

pub mod step;
