// The solver, on accepted tables and their kept numbers: it checks all that it is lent, works in the first W words of
// the work area, writes only when it answers, and leaves those words 0.
ghost use Rattle.std.specs.Prelude.{◌≡◌, ◌≤◌, length, replicate};
ghost use Rattle.rules.specs.SecondOpinion.{GivesOpinion};
ghost use Rattle.rules.specs.Tables.{tables_of};
ghost use Rattle.parity_game.specs.Said.{said};
ghost use Rattle.kept_numbers.specs.Reading.{FreshlyCounted};
ghost use Rattle.quasi_polynomial.specs.Running.{Height, OpinionRunnable, Opinion};

use crate::checks::{check_lent, opinion_words};
use area::{Area, next_set};
use kept_numbers::HIGHEST;
use parity_game::Answer;
use quasi_solvers::solve_even;

// The lowest odd number above the highest priority.
fn first_height(top: usize) -> usize
    requires { top ≤ 255 }
    ensures { Height top result }
{
    if top % 2 == 0 { top + 1 } else { top + 2 }
}

// The work itself, in W words, which are left 0: the set of all vertices stands first, and the solver for Even narrows
// a copy of it, with both precisions the number of vertices. What Even does not win is Odd's. Every priority is below
// `high`, which is odd.
fn run(
    owners: &[u8],
    priorities: &[u16],
    offsets: &[u16],
    targets: &[u16],
    high: usize,
    even: &mut [u64],
    odd: &mut [u64],
    work: &mut [u64],
)
    requires { OpinionRunnable (tables_of owners.now priorities.now offsets.now targets.now) high
        even.old odd.old work.old }
    ensures { (work.new ≡ replicate (length work.old) 0) ×
        Opinion
        (tables_of owners.now priorities.now offsets.now targets.now)
        even.new odd.new }
{
    let n = owners.len();
    let m = targets.len();
    let s = even.len();
    let all = Area { n, m, s }.free();
    let base = next_set(all, s);
    solver::prepare(offsets, targets, n, s, work, all);
    sets::copy_with(work, base, all, s);
    solve_even(owners, priorities, offsets, targets, work, base, high, n, n);
    sets::difference_with(work, all, base, s);
    sets::copy_from(even, &work[base..base + s]);
    sets::copy_from(odd, &work[all..all + s]);
    sets::clear(work, 0, work.len());
}

pub fn solve_quasi_polynomial(
    owners: &[u8],
    priorities: &[u16],
    offsets: &[u16],
    targets: &[u16],
    kept: &[u64],
    even: &mut [u64],
    odd: &mut [u64],
    work: &mut [u64],
) -> Answer
    requires { FreshlyCounted (tables_of owners.now priorities.now offsets.now targets.now) kept.now }
    ensures { GivesOpinion
        (tables_of owners.now priorities.now offsets.now targets.now)
        (record { even = even.old; odd = odd.old; work = work.old })
        (record { even = even.new; odd = odd.new; work = work.new })
        (said result) }
{
    let n = owners.len();
    let m = targets.len();
    check_lent(n, m, even.len(), odd.len(), work.len())?;
    let w = opinion_words(n, m);
    let high = first_height(kept[HIGHEST] as usize);
    run(
        owners,
        priorities,
        offsets,
        targets,
        high,
        even,
        odd,
        &mut work[0..w],
    );
    Ok(0)
}
