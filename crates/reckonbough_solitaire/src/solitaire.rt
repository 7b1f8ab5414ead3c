// The solitaire solver.
ghost use Rattle.rules.specs.Record.{record_of, ByRecord};
ghost use Rattle.rules.specs.Solitaire.{SolvesSolitaire};
ghost use Rattle.solitaire_game.specs.Running.{lent_of};
ghost use Rattle.telling.specs.Doors.{told};

use telling::tell;

pub fn reckonbough_solitaire(
    n: u64,
    m: u64,
    owners: &[u8],
    priorities: &[u16],
    offsets: &[u16],
    targets: &[u16],
    kept: &[u64],
    set: &mut [u64],
    work: &mut [u64],
    place: &mut u64,
    count: &mut u64,
) -> u64
    ensures { ByRecord
        (record_of n m owners.now priorities.now offsets.now targets.now
        kept.now)
        (told result place.new count.new)
        (lent_of set.old work.old)
        (lent_of set.new work.new)
        (λ t.
        SolvesSolitaire t
        (lent_of set.old work.old)
        (lent_of set.new work.new)
        (told result place.new count.new)) }
{
    let n = n as usize;
    let m = m as usize;
    match record::check_record(n, m, owners, priorities, offsets, targets, kept) {
        Ok(()) => {
            let done = solitaire_game::solve_solitaire_game(
                &owners[..n],
                &priorities[..n],
                &offsets[..n + 1],
                &targets[..m],
                kept,
                set,
                work,
            );
            tell(done, place, count)
        }
        Err(refused) => tell(Err(refused), place, count),
    }
}
