// Mending an incomplete export.
ghost use Rattle.rules.specs.Mending.{Mends};
ghost use Rattle.rules.specs.Tables.{tables_of};
ghost use Rattle.mend.specs.Laws.{lent_of};
ghost use Rattle.telling.specs.Doors.{told};

#[unsafe(no_mangle)]
pub extern "C" fn reckonbough_mend(
    owners: &[u8],
    priorities: &[u16],
    offsets: &[u16],
    targets: &[u16],
    new_priorities: &mut [u16],
    new_offsets: &mut [u16],
    new_targets: &mut [u16],
    list: &mut [u16],
    place: &mut u64,
    count: &mut u64,
) -> u64
    ensures { Mends
        (tables_of owners.now priorities.now offsets.now targets.now)
        (lent_of new_priorities.old new_offsets.old new_targets.old
        list.old)
        (lent_of new_priorities.new new_offsets.new new_targets.new
        list.new)
        (told result place.new count.new) }
{
    reckonbough_writing::mending::reckonbough_mend(
        owners,
        priorities,
        offsets,
        targets,
        new_priorities,
        new_offsets,
        new_targets,
        list,
        place,
        count,
    )
}
