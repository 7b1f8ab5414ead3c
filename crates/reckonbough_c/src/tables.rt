// The table checks and compaction.
ghost use Rattle.std.specs.Prelude.{◌≡◌};
ghost use Rattle.rules.specs.Outcome.{outcome, answered};
ghost use Rattle.rules.specs.Tables.{table_checks, tables_of};
ghost use Rattle.rules.specs.Compaction.{Compacts};
ghost use Rattle.rules.specs.Record.{record_of, ByRecord};
ghost use Rattle.compaction.specs.Laws.{lent_of};
ghost use Rattle.telling.specs.Doors.{told};

#[unsafe(no_mangle)]
pub extern "C" fn reckonbough_check_tables(
    owners: &[u8],
    priorities: &[u16],
    offsets: &[u16],
    targets: &[u16],
    place: &mut u64,
    count: &mut u64,
) -> u64
    ensures { told result place.new count.new ≡
        outcome
        (table_checks
        (tables_of owners.now priorities.now offsets.now targets.now))
        (answered 0) }
{
    reckonbough_tables::tables::reckonbough_check_tables(
        owners, priorities, offsets, targets, place, count,
    )
}

#[unsafe(no_mangle)]
pub extern "C" fn reckonbough_compact(
    n: u64,
    m: u64,
    owners: &[u8],
    priorities: &[u16],
    offsets: &[u16],
    targets: &[u16],
    kept: &[u64],
    new_priorities: &mut [u16],
    new_kept: &mut [u64],
    place: &mut u64,
    count: &mut u64,
) -> u64
    ensures { ByRecord
        (record_of n m owners.now priorities.now offsets.now targets.now
        kept.now)
        (told result place.new count.new)
        (lent_of new_priorities.old new_kept.old)
        (lent_of new_priorities.new new_kept.new)
        (λ t.
        Compacts t
        (lent_of new_priorities.old new_kept.old)
        (lent_of new_priorities.new new_kept.new)
        (told result place.new count.new)) }
{
    reckonbough_tables::tables::reckonbough_compact(
        n,
        m,
        owners,
        priorities,
        offsets,
        targets,
        kept,
        new_priorities,
        new_kept,
        place,
        count,
    )
}
