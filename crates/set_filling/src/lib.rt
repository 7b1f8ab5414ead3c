// Sets cleared, filled and copied, word by word. Each contract says what every bit is afterwards, bits at n and above
// included.
#![tactic(auto)]

mod filling;

pub use filling::{clear, copy_from, fill};
