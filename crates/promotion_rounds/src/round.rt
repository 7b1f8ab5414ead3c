// One round on plain slices, with the small state by value.
ghost use Rattle.promotion_rounds.specs.RoundPromise.{RoundReady, RoundDone};

use area::Area;
use highest_priority::one_less;
use parity_game::{Player, Priority};
use promotion_escape::best_escape;
use promotion_levels::{depth_at, descend, held_at, level_at, levels_at, mark_at, priority_at};
use promotion_moves::dominion::solve_dominion;
use promotion_moves::fill::assign_missing_strategies;
use promotion_moves::promote::promote;
use promotion_open::is_open;
use promotion_region::query;

// The current priority, how many vertices are unsolved, and the rounds made.
#[derive(Clone, Copy)]
pub struct State {
    pub current: Priority,
    pub unsolved: usize,
    pub rounds: u64,
}

// The state after one round more.
pub fn round(
    owners: &[u8],
    priorities: &[u16],
    offsets: &[u16],
    targets: &[u16],
    s: usize,
    work: &mut [u64],
    state: State,
) -> State
    requires { RoundReady owners.now priorities.now offsets.now targets.now s
        state.current.0 state.unsolved state.rounds work.old }
    ensures { RoundDone owners.now priorities.now offsets.now targets.now s
        state.current.0 state.unsolved state.rounds result.current.0 result.unsolved result.rounds
        work.old work.new }
{
    let n = owners.len();
    let m = targets.len();
    let held = held_at(n, m, s);
    let depth = depth_at(held, s);
    let levels = levels_at(n, depth);
    let mark = mark_at(levels);
    let k = work[depth] as usize;
    let base = level_at(levels, s, k);
    let below = level_at(levels, s, k + 1);
    let heads = level_at(levels, s, k + 2);
    let p = state.current;
    let alpha = Player::from_priority(p).index();
    let mut after = state;
    after.rounds += 1;
    query(owners, offsets, targets, p, s, work, held, base, mark);
    if is_open(owners, offsets, targets, alpha, s, work, heads, held, below) {
        after.current = descend(priorities, m, s, work, held, levels, k + 1, one_less(p));
        return after;
    }
    let entry = Area { n, m, s }.entries();
    assign_missing_strategies(owners, offsets, targets, alpha, s, work, heads, held, entry);
    let j = best_escape(owners, offsets, targets, alpha, s, work, held, levels, k);
    if 0 < j {
        let to = j - 1;
        let higher = Priority(work[priority_at(depth, to)] as usize);
        promote(s, work, held, depth, level_at(levels, s, to), to, mark);
        after.current = higher;
        return after;
    }
    let highest = Priority(work[priority_at(depth, 0)] as usize);
    solve_dominion(owners, offsets, targets, p, s, work, held, levels, k);
    after.current = descend(priorities, m, s, work, held, levels, 0, highest);
    after.unsolved = sets::size(&work[levels..levels + s]);
    after
}
