// The thin round: the small state lent and changed, as the Rust's solver is worked on through `&mut self`.
ghost use Rattle.promotion_rounds.specs.RoundPromise.{RoundReady, RoundDone};

use crate::round::{State, round};

impl State {
    // One round more.
    pub fn step(
        &mut self,
        owners: &[u8],
        priorities: &[u16],
        offsets: &[u16],
        targets: &[u16],
        s: usize,
        work: &mut [u64],
    )
        requires { RoundReady owners.now priorities.now offsets.now targets.now s
            self.old.current.0 self.old.unsolved self.old.rounds work.old }
        ensures { RoundDone owners.now priorities.now offsets.now targets.now s
            self.old.current.0 self.old.unsolved self.old.rounds
            self.new.current.0 self.new.unsolved self.new.rounds
            work.old work.new }
    {
        *self = round(owners, priorities, offsets, targets, s, work, *self);
    }
}
