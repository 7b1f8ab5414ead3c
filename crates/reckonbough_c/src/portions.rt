// PGSolver texts that come in portions.
ghost use Rattle.rules.specs.Portions.{StartsText, ReadsPortion, EndsRecord};
ghost use Rattle.pgsolver_serial.specs.Stands.{lent_of, Stands};
ghost use Rattle.pgsolver_record.specs.Records.{closing_record_of};
ghost use Rattle.telling.specs.Doors.{told};

// A fresh start.
#[unsafe(no_mangle)]
pub extern "C" fn reckonbough_read_start(
    most_bytes: u64,
    state: &mut [u64],
    owners: &mut [u8],
    priorities: &mut [u16],
    offsets: &mut [u16],
    targets: &mut [u16],
    place: &mut u64,
    count: &mut u64,
) -> u64
    ensures { StartsText Stands most_bytes
        (lent_of state.old owners.old priorities.old offsets.old
        targets.old)
        (lent_of state.new owners.new priorities.new offsets.new
        targets.new)
        (told result place.new count.new) }
{
    reckonbough_portions::portions::reckonbough_read_start(
        most_bytes, state, owners, priorities, offsets, targets, place, count,
    )
}

// One portion more.
#[unsafe(no_mangle)]
pub extern "C" fn reckonbough_read_portion(
    portion: &[u8],
    state: &mut [u64],
    owners: &mut [u8],
    priorities: &mut [u16],
    offsets: &mut [u16],
    targets: &mut [u16],
    place: &mut u64,
    count: &mut u64,
) -> u64
    ensures { ReadsPortion Stands portion.now
        (lent_of state.old owners.old priorities.old offsets.old
        targets.old)
        (lent_of state.new owners.new priorities.new offsets.new
        targets.new)
        (told result place.new count.new) }
{
    reckonbough_portions::portions::reckonbough_read_portion(
        portion, state, owners, priorities, offsets, targets, place, count,
    )
}

// The end of the text: a game, with the kept numbers of its record.
#[unsafe(no_mangle)]
pub extern "C" fn reckonbough_read_end(
    state: &mut [u64],
    owners: &mut [u8],
    priorities: &mut [u16],
    offsets: &mut [u16],
    targets: &mut [u16],
    kept: &mut [u64],
    work: &mut [u64],
    n: &mut u64,
    m: &mut u64,
    place: &mut u64,
    count: &mut u64,
) -> u64
    ensures { EndsRecord Stands
        (closing_record_of state.old owners.old priorities.old offsets.old
        targets.old kept.old work.old n.old m.old)
        (closing_record_of state.new owners.new priorities.new offsets.new
        targets.new kept.new work.new n.new m.new)
        (told result place.new count.new) }
{
    reckonbough_portions::portions::reckonbough_read_end(
        state, owners, priorities, offsets, targets, kept, work, n, m, place, count,
    )
}
