// Rounds one after another.
ghost use Rattle.std.specs.Prelude.{◌≤◌};
ghost use Rattle.promotion_rounds.specs.SolveAll.{RoundsReached, Ended};

use crate::round::State;

// Until all vertices are solved, or the budget is used up.
pub fn solve(
    owners: &[u8],
    priorities: &[u16],
    offsets: &[u16],
    targets: &[u16],
    budget: u64,
    s: usize,
    work: &mut [u64],
    start: State,
) -> State
    requires { (RoundsReached owners.now priorities.now offsets.now targets.now s
        start.current.0 start.unsolved start.rounds work.old) ×
        (start.rounds ≤ budget) }
    ensures { Ended owners.now priorities.now offsets.now targets.now s budget
        result.current.0 result.unsolved result.rounds work.old work.new }
{
    let mut state = start;
    while 0 < state.unsolved {
        if state.rounds == budget {
            return state;
        }
        state.step(owners, priorities, offsets, targets, s, work);
    }
    state
}
