// The attractor of document 01, by steps, over one lent work area. It serves every solver. The work area begins with
// the predecessor table (n + 1 + m words), then a counter, a distance and an entry for each vertex, two layers, and the
// set of those whose counter was made; sets stand at bases that the caller gives.
#![tactic(auto)]

mod whole;

pub use whole::attract;
