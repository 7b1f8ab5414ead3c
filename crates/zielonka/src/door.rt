// The solver, on accepted tables and their kept numbers: it checks all that it is lent, works in the first W words of
// the work area, writes only when it answers, and leaves those words 0.
ghost use Rattle.std.specs.Prelude.{◌≡◌, length, replicate};
ghost use Rattle.rules.specs.Solver.{Solves};
ghost use Rattle.rules.specs.Tables.{game_of, tables_of};
ghost use Rattle.rules.specs.Zielonka.{zielonka};
ghost use Rattle.solver.specs.Unsolved.{said};
ghost use Rattle.kept_numbers.specs.Reading.{FreshlyCounted};
ghost use Rattle.solver.specs.Running.{Runnable, Runs};
ghost use Rattle.zielonka_recursion.specs.Ending.{Under};

use area::Area;
use kept_numbers::HIGHEST;
use parity_game::Priority;
use solver::{Engine, Solver, Unsolved};
use zielonka_level::{levels_at, odd_at};
use zielonka_recursion::zielonka_rec;

// The work itself, in W words, which are left 0. No priority is above `top`. What Odd did not win is Even's.
fn run(
    owners: &[u8],
    priorities: &[u16],
    offsets: &[u16],
    targets: &[u16],
    top: Priority,
    budget: u64,
    even: &mut [u64],
    odd: &mut [u64],
    strategy: &mut [u16],
    work: &mut [u64],
) -> Option<u64>
    requires { Runnable (tables_of owners.now priorities.now offsets.now targets.now)
        even.old odd.old strategy.old work.old ×
        Under (tables_of owners.now priorities.now offsets.now targets.now) top.0 }
    ensures { let t =
        tables_of owners.now priorities.now offsets.now targets.now in
        (work.new ≡ replicate (length work.old) 0) ×
        Runs budget t (zielonka (game_of t)).calls (zielonka (game_of t)).won (zielonka (game_of t)).entries
        (record { even = even.old; odd = odd.old; strategy = strategy.old })
        (record { even = even.new; odd = odd.new; strategy = strategy.new })
        result }
{
    let n = owners.len();
    let m = targets.len();
    let s = parity_game::set_words(n);
    let area = Area { n, m, s };
    let entries = area.entries();
    let first = area.free();
    let even_won = priority_sets::behind_sets(n, m, s);
    let odd_won = odd_at(n, m, s);
    let base = levels_at(n, m, s);
    solver::prepare(offsets, targets, n, s, work, base);
    priority_sets::make(priorities, s, work, first);
    sets::clear(work, odd_won, s);
    let Some(calls) = zielonka_rec(
        owners, priorities, offsets, targets, work, base, top, 0, budget,
    ) else {
        sets::clear(work, 0, work.len());
        return None;
    };
    set_difference::without(s, work, even_won, base, odd_won);
    solver::write_out(owners, s, entries, even_won, work, even, odd, strategy);
    sets::clear(work, 0, work.len());
    Some(calls)
}

// Zielonka's recursion as a solver.
pub struct Zielonka;

impl Engine for Zielonka {
    ghost needed = { λ t. (zielonka (game_of t)).calls };

    ghost won = { λ t. (zielonka (game_of t)).won };

    ghost entries = { λ t. (zielonka (game_of t)).entries };

    fn run(
        owners: &[u8],
        priorities: &[u16],
        offsets: &[u16],
        targets: &[u16],
        kept: &[u64],
        budget: u64,
        even: &mut [u64],
        odd: &mut [u64],
        strategy: &mut [u16],
        work: &mut [u64],
    ) -> Option<u64> {
        let top = kept[HIGHEST] as usize;
        run(
            owners,
            priorities,
            offsets,
            targets,
            Priority(top),
            budget,
            even,
            odd,
            strategy,
            work,
        )
    }
}

impl Solver for Zielonka {
    fn solve(
        owners: &[u8],
        priorities: &[u16],
        offsets: &[u16],
        targets: &[u16],
        kept: &[u64],
        budget: u64,
        even: &mut [u64],
        odd: &mut [u64],
        strategy: &mut [u16],
        work: &mut [u64],
    ) -> Result<u64, Unsolved> {
        solve_zielonka(
            owners, priorities, offsets, targets, kept, budget, even, odd, strategy, work,
        )
    }
}

pub fn solve_zielonka(
    owners: &[u8],
    priorities: &[u16],
    offsets: &[u16],
    targets: &[u16],
    kept: &[u64],
    budget: u64,
    even: &mut [u64],
    odd: &mut [u64],
    strategy: &mut [u16],
    work: &mut [u64],
) -> Result<u64, Unsolved>
    requires { FreshlyCounted (tables_of owners.now priorities.now offsets.now targets.now) kept.now }
    ensures { let t =
        tables_of owners.now priorities.now offsets.now targets.now in
        Solves budget t (zielonka (game_of t)).calls (zielonka (game_of t)).won (zielonka (game_of t)).entries
        (record {
          even = even.old;
          odd = odd.old;
          strategy = strategy.old;
          work = work.old;
        })
        (record {
          even = even.new;
          odd = odd.new;
          strategy = strategy.new;
          work = work.new;
        })
        (said result) }
{
    solver::solve::<Zielonka>(
        owners, priorities, offsets, targets, kept, budget, even, odd, strategy, work,
    )
}
