// The work of the public attractor, for inputs that its checks let pass: V and the target go into the work area, and
// the result, the strategy and the distances come out of it.
#![tactic(auto)]

mod whole;

pub use whole::run;
