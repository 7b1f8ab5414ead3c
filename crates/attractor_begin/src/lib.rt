// How an attractor begins: the target is the first layer, the second is empty, and no vertex was met.
#![tactic(auto)]

mod begin;

pub use begin::begin_layers;
