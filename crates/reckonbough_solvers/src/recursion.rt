// Zielonka's solver.
ghost use Rattle.rules.specs.Record.{record_of, ByRecord};
ghost use Rattle.rules.specs.Solver.{Lent, Solves};
ghost use Rattle.rules.specs.Tables.{game_of};
ghost use Rattle.rules.specs.Zielonka.{zielonka};
ghost use Rattle.telling.specs.Doors.{told};

use crate::door::{solve, tell};
use zielonka::Zielonka;

pub fn reckonbough_zielonka(
    n: u64,
    m: u64,
    owners: &[u8],
    priorities: &[u16],
    offsets: &[u16],
    targets: &[u16],
    kept: &[u64],
    budget: u64,
    even: &mut [u64],
    odd: &mut [u64],
    strategy: &mut [u16],
    work: &mut [u64],
    place: &mut u64,
    count: &mut u64,
) -> u64
    ensures { (let before : Lent =
        record {
          even = even.old;
          odd = odd.old;
          strategy = strategy.old;
          work = work.old;
        } in
        let after : Lent =
        record {
          even = even.new;
          odd = odd.new;
          strategy = strategy.new;
          work = work.new;
        } in
        ByRecord
        (record_of n m owners.now priorities.now offsets.now targets.now
        kept.now)
        (told result place.new count.new) before after
        (λ t.
        Solves budget t (zielonka (game_of t)).calls
        (zielonka (game_of t)).won
        (zielonka (game_of t)).entries before after
        (told result place.new count.new))) }
{
    let solved = solve::<Zielonka>(
        n as usize, m as usize, owners, priorities, offsets, targets, kept, budget, even, odd,
        strategy, work,
    );
    tell(solved, place, count)
}
