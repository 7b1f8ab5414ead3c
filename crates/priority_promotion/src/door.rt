// The solver, on accepted tables and their kept numbers: it checks all that it is lent, works in the first W words of
// the work area, writes only when it answers, and leaves those words 0.
ghost use Rattle.std.specs.Prelude.{◌≡◌};
ghost use Rattle.rules.specs.Promotion.{after_rounds, rounds_needed};
ghost use Rattle.rules.specs.Solver.{Solves};
ghost use Rattle.rules.specs.Tables.{game_of, tables_of};
ghost use Rattle.kept_numbers.specs.Reading.{FreshlyCounted};
ghost use Rattle.solver.specs.Unsolved.{said};
ghost use Rattle.priority_promotion.specs.Running.{won_in, entries_in};

use area::Area;
use kept_numbers::HIGHEST;
use parity_game::{Player, Priority};
use promotion_begin::begin;
use promotion_levels::{depth_at, held_at, levels_at, won_at};
use promotion_rounds::round::State;
use promotion_rounds::solve::solve;
use solver::{Engine, Solver, Unsolved};

// Priority promotion as a solver.
pub struct PriorityPromotion;

impl Engine for PriorityPromotion {
    ghost needed = { λ t. rounds_needed (game_of t) };

    ghost won = { won_in };

    ghost entries = { entries_in };

    fn run(
        owners: &[u8],
        priorities: &[u16],
        offsets: &[u16],
        targets: &[u16],
        kept: &[u64],
        budget: u64,
        even: &mut [u64],
        odd: &mut [u64],
        strategy: &mut [u16],
        work: &mut [u64],
    ) -> Option<u64> {
        let n = owners.len();
        let m = targets.len();
        let s = parity_game::set_words(n);
        let entries = Area { n, m, s }.entries();
        let held = held_at(n, m, s);
        let levels = levels_at(n, depth_at(held, s));
        solver::prepare(offsets, targets, n, s, work, levels);
        let top = kept[HIGHEST] as usize;
        let highest = begin(priorities, m, s, work, held, levels, Priority(top));
        let start = State {
            current: highest,
            unsolved: n,
            rounds: 0,
        };
        let end = solve(owners, priorities, offsets, targets, budget, s, work, start);
        if 0 < end.unsolved {
            sets::clear(work, 0, work.len());
            return None;
        }
        let won = won_at(held, s, Player::Even);
        solver::write_out(owners, s, entries, won, work, even, odd, strategy);
        sets::clear(work, 0, work.len());
        Some(end.rounds)
    }
}

impl Solver for PriorityPromotion {
    fn solve(
        owners: &[u8],
        priorities: &[u16],
        offsets: &[u16],
        targets: &[u16],
        kept: &[u64],
        budget: u64,
        even: &mut [u64],
        odd: &mut [u64],
        strategy: &mut [u16],
        work: &mut [u64],
    ) -> Result<u64, Unsolved> {
        solve_priority_promotion(
            owners, priorities, offsets, targets, kept, budget, even, odd, strategy, work,
        )
    }
}

pub fn solve_priority_promotion(
    owners: &[u8],
    priorities: &[u16],
    offsets: &[u16],
    targets: &[u16],
    kept: &[u64],
    budget: u64,
    even: &mut [u64],
    odd: &mut [u64],
    strategy: &mut [u16],
    work: &mut [u64],
) -> Result<u64, Unsolved>
    requires { FreshlyCounted (tables_of owners.now priorities.now offsets.now targets.now) kept.now }
    ensures { let t =
        tables_of owners.now priorities.now offsets.now targets.now in
        Solves budget t (rounds_needed (game_of t))
        (after_rounds (game_of t) (rounds_needed (game_of t))).won
        (after_rounds (game_of t) (rounds_needed (game_of t))).entries
        (record {
          even = even.old;
          odd = odd.old;
          strategy = strategy.old;
          work = work.old;
        })
        (record {
          even = even.new;
          odd = odd.new;
          strategy = strategy.new;
          work = work.new;
        })
        (said result) }
{
    solver::solve::<PriorityPromotion>(
        owners, priorities, offsets, targets, kept, budget, even, odd, strategy, work,
    )
}
