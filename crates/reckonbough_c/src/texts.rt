// What a PGSolver text says, whether or not it is a game.
ghost use Rattle.rules.specs.Reading as Reading;
ghost use Rattle.rules.specs.Reading.{ReadsText};
ghost use Rattle.pgsolver_finish.specs.Finishing.{written_of};
ghost use Rattle.telling.specs.Doors.{told};

// What the text says, also where it is no game.
#[unsafe(no_mangle)]
pub extern "C" fn reckonbough_read_tables(
    text: &[u8],
    most_bytes: u64,
    owners: &mut [u8],
    priorities: &mut [u16],
    offsets: &mut [u16],
    targets: &mut [u16],
    work: &mut [u64],
    n: &mut u64,
    m: &mut u64,
    place: &mut u64,
    count: &mut u64,
) -> u64
    ensures { ReadsText Reading.text most_bytes text.now
        (written_of owners.old priorities.old offsets.old targets.old
        work.old n.old m.old)
        (written_of owners.new priorities.new offsets.new targets.new
        work.new n.new m.new)
        (told result place.new count.new) }
{
    reckonbough_reading::texts::reckonbough_read_tables(
        text, most_bytes, owners, priorities, offsets, targets, work, n, m, place, count,
    )
}
