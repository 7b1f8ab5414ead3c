// A third set made of two in one pass: the one without the other, or what both have. All three are parts of one slice,
// of `s` words each: the solvers keep all their sets in one work area.
#![tactic(auto)]

mod difference;

pub use difference::{meet, without};
