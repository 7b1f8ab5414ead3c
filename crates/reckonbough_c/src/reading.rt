// A game record from a PGSolver text.
ghost use Rattle.rules.specs.Reading.{ReadsRecord};
ghost use Rattle.pgsolver_record.specs.Records.{written_record_of};
ghost use Rattle.telling.specs.Doors.{told};

// A game, with the kept numbers of its record.
#[unsafe(no_mangle)]
pub extern "C" fn reckonbough_read(
    text: &[u8],
    most_bytes: u64,
    owners: &mut [u8],
    priorities: &mut [u16],
    offsets: &mut [u16],
    targets: &mut [u16],
    kept: &mut [u64],
    work: &mut [u64],
    n: &mut u64,
    m: &mut u64,
    place: &mut u64,
    count: &mut u64,
) -> u64
    ensures { ReadsRecord most_bytes text.now
        (written_record_of owners.old priorities.old offsets.old targets.old
        kept.old work.old n.old m.old)
        (written_record_of owners.new priorities.new offsets.new targets.new
        kept.new work.new n.new m.new)
        (told result place.new count.new) }
{
    reckonbough_reading::reading::reckonbough_read(
        text, most_bytes, owners, priorities, offsets, targets, kept, work, n, m, place, count,
    )
}
