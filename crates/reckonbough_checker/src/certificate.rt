// The certificate checker.
ghost use Rattle.rules.specs.Checker.{Checks};
ghost use Rattle.rules.specs.Record.{record_of, ByRecord};
ghost use Rattle.telling.specs.Doors.{told};

use telling::tell;

pub fn reckonbough_check(
    n: u64,
    m: u64,
    owners: &[u8],
    priorities: &[u16],
    offsets: &[u16],
    targets: &[u16],
    kept: &[u64],
    even: &[u64],
    odd: &[u64],
    strategy: &[u16],
    work: &mut [u64],
    place: &mut u64,
    count: &mut u64,
) -> u64
    ensures { ByRecord
        (record_of n m owners.now priorities.now offsets.now targets.now
        kept.now)
        (told result place.new count.new)
        work.old
        work.new
        (λ t.
        Checks t even.now odd.now strategy.now work.old work.new
        (told result place.new count.new)) }
{
    let n = n as usize;
    let m = m as usize;
    match record::check_record(n, m, owners, priorities, offsets, targets, kept) {
        Ok(()) => {
            let done = checker::check(
                &owners[..n],
                &priorities[..n],
                &offsets[..n + 1],
                &targets[..m],
                kept,
                even,
                odd,
                strategy,
                work,
            );
            tell(done, place, count)
        }
        Err(refused) => tell(Err(refused), place, count),
    }
}
