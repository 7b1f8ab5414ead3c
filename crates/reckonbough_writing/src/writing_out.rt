// Writing a game as text.
ghost use Rattle.rules.specs.Record.{record_of, ByRecord};
ghost use Rattle.rules.specs.Writing.{Writes};
ghost use Rattle.telling.specs.Doors.{told};

use telling::tell;

pub fn reckonbough_write(
    n: u64,
    m: u64,
    owners: &[u8],
    priorities: &[u16],
    offsets: &[u16],
    targets: &[u16],
    kept: &[u64],
    text: &mut [u8],
    place: &mut u64,
    count: &mut u64,
) -> u64
    ensures { ByRecord
        (record_of n m owners.now priorities.now offsets.now targets.now
        kept.now)
        (told result place.new count.new)
        text.old
        text.new
        (λ t.
        Writes t text.old text.new (told result place.new count.new)) }
{
    let n = n as usize;
    let m = m as usize;
    match record::check_record(n, m, owners, priorities, offsets, targets, kept) {
        Ok(()) => {
            let done = pgsolver_writer::write(
                &owners[..n],
                &priorities[..n],
                &offsets[..n + 1],
                &targets[..m],
                text,
            );
            tell(done, place, count)
        }
        Err(refused) => tell(Err(refused), place, count),
    }
}
