// The certificate checker.
ghost use Rattle.rules.specs.Checker.{Checks};
ghost use Rattle.rules.specs.Record.{record_of, ByRecord};
ghost use Rattle.telling.specs.Doors.{told};

#[unsafe(no_mangle)]
pub extern "C" fn reckonbough_check(
    n: u64,
    m: u64,
    owners: &[u8],
    priorities: &[u16],
    offsets: &[u16],
    targets: &[u16],
    kept: &[u64],
    even: &[u64],
    odd: &[u64],
    strategy: &[u16],
    work: &mut [u64],
    place: &mut u64,
    count: &mut u64,
) -> u64
    ensures { ByRecord
        (record_of n m owners.now priorities.now offsets.now targets.now
        kept.now)
        (told result place.new count.new)
        work.old
        work.new
        (λ t.
        Checks t even.now odd.now strategy.now work.old work.new
        (told result place.new count.new)) }
{
    reckonbough_checker::certificate::reckonbough_check(
        n, m, owners, priorities, offsets, targets, kept, even, odd, strategy, work, place, count,
    )
}
