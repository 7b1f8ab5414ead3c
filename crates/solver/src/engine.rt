// A solver by its own rules, and what all solvers have in common: they check what they are lent, work in the first W
// words of the work area, write only when they answer, and leave those words 0.
ghost use Rattle.std.specs.Prelude.{◌≡◌, ℕ, length, replicate};
ghost use Rattle.rules.specs.Counting.{Set};
ghost use Rattle.rules.specs.Game as Game;
ghost use Rattle.rules.specs.Solver.{Solves};
ghost use Rattle.rules.specs.Tables.{Tables, tables_of};
ghost use Rattle.kept_numbers.specs.Reading.{FreshlyCounted};
ghost use Rattle.solver.specs.Running.{Runnable, Runs};
ghost use Rattle.solver.specs.Unsolved.{said};

use crate::unsolved::Unsolved;

pub trait Engine {
    // How many calls or rounds the rules need, whom they find winning, and by which entries.
    ghost needed: { Tables → ℕ };

    ghost won: { Tables → Game.Player → Set };

    ghost entries: { Tables → ℕ → ℕ };

    // The work itself, in W words, which are left 0. `None` where more is needed than the budget.
    fn run(
        owners: &[u8],
        priorities: &[u16],
        offsets: &[u16],
        targets: &[u16],
        kept: &[u64],
        budget: u64,
        even: &mut [u64],
        odd: &mut [u64],
        strategy: &mut [u16],
        work: &mut [u64],
    ) -> Option<u64>
        requires { Runnable (tables_of owners.now priorities.now offsets.now targets.now)
            even.old odd.old strategy.old work.old ×
            FreshlyCounted (tables_of owners.now priorities.now offsets.now targets.now) kept.now }
        ensures { let t =
            tables_of owners.now priorities.now offsets.now targets.now in
            (work.new ≡ replicate (length work.old) 0) ×
            Runs budget t (needed t) (won t) (entries t)
            (record { even = even.old; odd = odd.old; strategy = strategy.old })
            (record { even = even.new; odd = odd.new; strategy = strategy.new })
            result };
}

// On accepted tables and their kept numbers.
pub fn solve<E: Engine>(
    owners: &[u8],
    priorities: &[u16],
    offsets: &[u16],
    targets: &[u16],
    kept: &[u64],
    budget: u64,
    even: &mut [u64],
    odd: &mut [u64],
    strategy: &mut [u16],
    work: &mut [u64],
) -> Result<u64, Unsolved>
    requires { FreshlyCounted (tables_of owners.now priorities.now offsets.now targets.now) kept.now }
    ensures { let t =
        tables_of owners.now priorities.now offsets.now targets.now in
        Solves budget t (E.needed t) (E.won t) (E.entries t)
        (record {
          even = even.old;
          odd = odd.old;
          strategy = strategy.old;
          work = work.old;
        })
        (record {
          even = even.new;
          odd = odd.new;
          strategy = strategy.new;
          work = work.new;
        })
        (said result) }
{
    let n = owners.len();
    let m = targets.len();
    lent_checks::checks::check_lent(n, m, even.len(), odd.len(), strategy.len(), work.len())?;
    let w = parity_game::work_words(n, m);
    E::run(
        owners,
        priorities,
        offsets,
        targets,
        kept,
        budget,
        even,
        odd,
        strategy,
        &mut work[0..w],
    )
    .ok_or(Unsolved::OverBudget(budget))
}

// A solver by the function that its crate gives for it.
pub trait Solver: Engine {
    fn solve(
        owners: &[u8],
        priorities: &[u16],
        offsets: &[u16],
        targets: &[u16],
        kept: &[u64],
        budget: u64,
        even: &mut [u64],
        odd: &mut [u64],
        strategy: &mut [u16],
        work: &mut [u64],
    ) -> Result<u64, Unsolved>
        requires { FreshlyCounted (tables_of owners.now priorities.now offsets.now targets.now) kept.now }
        ensures { let t =
            tables_of owners.now priorities.now offsets.now targets.now in
            Solves budget t (Self.needed t) (Self.won t) (Self.entries t)
            (record {
              even = even.old;
              odd = odd.old;
              strategy = strategy.old;
              work = work.old;
            })
            (record {
              even = even.new;
              odd = odd.new;
              strategy = strategy.new;
              work = work.new;
            })
            (said result) };
}
