// Writing a game as text.
ghost use Rattle.rules.specs.Record.{record_of, ByRecord};
ghost use Rattle.rules.specs.Writing.{Writes};
ghost use Rattle.telling.specs.Doors.{told};

#[unsafe(no_mangle)]
pub extern "C" fn reckonbough_write(
    n: u64,
    m: u64,
    owners: &[u8],
    priorities: &[u16],
    offsets: &[u16],
    targets: &[u16],
    kept: &[u64],
    text: &mut [u8],
    place: &mut u64,
    count: &mut u64,
) -> u64
    ensures { ByRecord
        (record_of n m owners.now priorities.now offsets.now targets.now
        kept.now)
        (told result place.new count.new)
        text.old
        text.new
        (λ t.
        Writes t text.old text.new (told result place.new count.new)) }
{
    reckonbough_writing::writing_out::reckonbough_write(
        n, m, owners, priorities, offsets, targets, kept, text, place, count,
    )
}
