// The counters of an attractor: of an opponent's vertex of V, its edges that end inside V and were not met yet.
#![tactic(auto)]

pub mod counters;
