// The table checks and compaction.
ghost use Rattle.std.specs.Prelude.{◌≡◌};
ghost use Rattle.rules.specs.Outcome.{outcome, answered};
ghost use Rattle.rules.specs.Tables.{table_checks, tables_of};
ghost use Rattle.rules.specs.Compaction.{Compacts};
ghost use Rattle.rules.specs.Record.{record_of, ByRecord};
ghost use Rattle.compaction.specs.Laws.{lent_of};
ghost use Rattle.telling.specs.Doors.{told};

use telling::tell;

pub fn reckonbough_check_tables(
    owners: &[u8],
    priorities: &[u16],
    offsets: &[u16],
    targets: &[u16],
    place: &mut u64,
    count: &mut u64,
) -> u64
    ensures { told result place.new count.new ≡
        outcome
        (table_checks
        (tables_of owners.now priorities.now offsets.now targets.now))
        (answered 0) }
{
    let checked = table_checks::check_tables(owners, priorities, offsets, targets);
    tell(checked.and(Ok(0)), place, count)
}

pub fn reckonbough_compact(
    n: u64,
    m: u64,
    owners: &[u8],
    priorities: &[u16],
    offsets: &[u16],
    targets: &[u16],
    kept: &[u64],
    new_priorities: &mut [u16],
    new_kept: &mut [u64],
    place: &mut u64,
    count: &mut u64,
) -> u64
    ensures { ByRecord
        (record_of n m owners.now priorities.now offsets.now targets.now
        kept.now)
        (told result place.new count.new)
        (lent_of new_priorities.old new_kept.old)
        (lent_of new_priorities.new new_kept.new)
        (λ t.
        Compacts t
        (lent_of new_priorities.old new_kept.old)
        (lent_of new_priorities.new new_kept.new)
        (told result place.new count.new)) }
{
    let n = n as usize;
    let m = m as usize;
    match record::check_record(n, m, owners, priorities, offsets, targets, kept) {
        Ok(()) => {
            let done = compaction::compact(
                &owners[..n],
                &priorities[..n],
                &offsets[..n + 1],
                &targets[..m],
                new_priorities,
                new_kept,
            );
            tell(done, place, count)
        }
        Err(refused) => tell(Err(refused), place, count),
    }
}
