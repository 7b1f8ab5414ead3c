// What the doors of the two solvers have in common.
ghost use Rattle.std.specs.Prelude.{◌≡◌};
ghost use Rattle.rules.specs.Record.{record_of, ByRecord};
ghost use Rattle.rules.specs.Solver.{Lent, Solves};
ghost use Rattle.solver.specs.Unsolved.{said};
ghost use Rattle.telling.specs.Doors.{told};

use solver::{Solver, Unsolved};

// The record is checked, and past that its first entries are solved.
pub fn solve<E: Solver>(
    n: usize,
    m: usize,
    owners: &[u8],
    priorities: &[u16],
    offsets: &[u16],
    targets: &[u16],
    kept: &[u64],
    budget: u64,
    even: &mut [u64],
    odd: &mut [u64],
    strategy: &mut [u16],
    work: &mut [u64],
) -> Result<u64, Unsolved>
    ensures { (let before : Lent =
        record {
          even = even.old;
          odd = odd.old;
          strategy = strategy.old;
          work = work.old;
        } in
        let after : Lent =
        record {
          even = even.new;
          odd = odd.new;
          strategy = strategy.new;
          work = work.new;
        } in
        ByRecord
        (record_of n m owners.now priorities.now offsets.now targets.now
        kept.now)
        (said result) before after
        (λ t.
        Solves budget t (E.needed t) (E.won t) (E.entries t) before after
        (said result))) }
{
    record::check_record(n, m, owners, priorities, offsets, targets, kept)?;
    E::solve(
        &owners[..n],
        &priorities[..n],
        &offsets[..n + 1],
        &targets[..m],
        kept,
        budget,
        even,
        odd,
        strategy,
        work,
    )
}

// Writes the place and the count of what a solver gives, and gives its number.
pub fn tell(solved: Result<u64, Unsolved>, place: &mut u64, count: &mut u64) -> u64
    ensures { said solved ≡ told result place.new count.new }
{
    let (number, at, k) = match solved {
        Ok(k) => (0, 0, k),
        Err(Unsolved::Refused(refused)) => (refused.number(), refused.place(), 0),
        Err(Unsolved::OverBudget(budget)) => (13, 0, budget),
    };
    *place = at;
    *count = k;
    number
}
