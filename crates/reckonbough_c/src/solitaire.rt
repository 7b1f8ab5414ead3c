// The solitaire solver.
ghost use Rattle.rules.specs.Record.{record_of, ByRecord};
ghost use Rattle.rules.specs.Solitaire.{SolvesSolitaire};
ghost use Rattle.solitaire_game.specs.Running.{lent_of};
ghost use Rattle.telling.specs.Doors.{told};

#[unsafe(no_mangle)]
pub extern "C" fn reckonbough_solitaire(
    n: u64,
    m: u64,
    owners: &[u8],
    priorities: &[u16],
    offsets: &[u16],
    targets: &[u16],
    kept: &[u64],
    set: &mut [u64],
    work: &mut [u64],
    place: &mut u64,
    count: &mut u64,
) -> u64
    ensures { ByRecord
        (record_of n m owners.now priorities.now offsets.now targets.now
        kept.now)
        (told result place.new count.new)
        (lent_of set.old work.old)
        (lent_of set.new work.new)
        (λ t.
        SolvesSolitaire t
        (lent_of set.old work.old)
        (lent_of set.new work.new)
        (told result place.new count.new)) }
{
    reckonbough_solitaire::solitaire::reckonbough_solitaire(
        n, m, owners, priorities, offsets, targets, kept, set, work, place, count,
    )
}
