// Both engines on one game of at most 128 vertices and 512 edges, and the line for what they gave.
ghost use Rattle.std.specs.Prelude.{◌≡◌};
ghost use Rattle.rules.specs.Printing.{solved_line};
ghost use Rattle.rules.specs.Tables.{game_of, tables_of};
ghost use Rattle.solver.specs.Unsolved.{said};
ghost use Rattle.putting.specs.Puts.{Puts};
ghost use Rattle.both_engines.specs.Solved.{counted_of, EnginesReady, EnginesGiven};

use kept_numbers::KEPT;
use solver::Unsolved;

// What an engine needed, or that it was more than its budget. Neither refuses here; a refusal would go by its number.
fn counted(answer: Result<u64, Unsolved>) -> Option<u64>
    ensures { result ≡ counted_of (said answer) }
{
    match answer {
        Ok(count) => Some(count),
        Err(Unsolved::OverBudget(_)) => None,
        Err(Unsolved::Refused(refused)) => (refused.number() != 13).then_some(0),
    }
}

// Promotion comes first and Zielonka writes over its sets, so that the winners are Zielonka's unless it gave 13.
fn solve_in(
    owners: &[u8],
    priorities: &[u16],
    offsets: &[u16],
    targets: &[u16],
    kept: &[u64],
    budget: u64,
    even: &mut [u64],
    odd: &mut [u64],
    strategy: &mut [u16],
    work: &mut [u64],
    out: &mut [u8],
) -> usize
    requires { EnginesReady (tables_of owners.now priorities.now offsets.now targets.now) kept.now
        (record { even = even.old; odd = odd.old; strategy = strategy.old; work = work.old }) out.old }
    ensures { Puts 0
        (solved_line budget
        (game_of
        (tables_of owners.now priorities.now offsets.now targets.now)))
        out.old
        out.new
        result }
{
    // The same budget for each engine.
    let rounds = budget;
    let calls = budget;
    let promotion = priority_promotion::solve_priority_promotion(
        owners, priorities, offsets, targets, kept, rounds, even, odd, strategy, work,
    );
    let zielonka = zielonka::solve_zielonka(
        owners, priorities, offsets, targets, kept, calls, even, odd, strategy, work,
    );
    printing::solved_line(
        owners.len(),
        odd,
        counted(zielonka),
        counted(promotion),
        out,
    )
}

// In room for 128 vertices and 512 edges.
pub fn solve_tables(
    owners: &[u8],
    priorities: &[u16],
    offsets: &[u16],
    targets: &[u16],
    budget: u64,
    out: &mut [u8],
) -> usize
    requires { EnginesGiven (tables_of owners.now priorities.now offsets.now targets.now) out.old }
    ensures { Puts 0
        (solved_line budget
        (game_of
        (tables_of owners.now priorities.now offsets.now targets.now)))
        out.old
        out.new
        result }
{
    let n = owners.len();
    let s = parity_game::set_words(n);
    let mut kept = [0u64; KEPT];
    kept_numbers::write_fresh(priorities, &mut kept);
    let mut even = [0u64; 2];
    let mut odd = [0u64; 2];
    let mut strategy = [0u16; 128];
    let mut work = [0u64; 3888];
    solve_in(
        owners,
        priorities,
        offsets,
        targets,
        &kept,
        budget,
        &mut even[0..s],
        &mut odd[0..s],
        &mut strategy[0..n],
        &mut work,
        out,
    )
}
