// The fresh count and the edits.
ghost use Rattle.rules.specs.Record.{record_of, CountsFresh, Edits, set_priority, set_owner, turn_edge};
ghost use Rattle.telling.specs.Doors.{told};

#[unsafe(no_mangle)]
pub extern "C" fn reckonbough_fresh_count(
    n: u64,
    m: u64,
    owners: &[u8],
    priorities: &[u16],
    offsets: &[u16],
    targets: &[u16],
    kept: &mut [u64],
    place: &mut u64,
    count: &mut u64,
) -> u64
    ensures { CountsFresh
        (record_of n m owners.now priorities.now offsets.now targets.now
        kept.old)
        kept.new
        (told result place.new count.new) }
{
    reckonbough_edits::editing::reckonbough_fresh_count(
        n, m, owners, priorities, offsets, targets, kept, place, count,
    )
}

#[unsafe(no_mangle)]
pub extern "C" fn reckonbough_set_priority(
    n: u64,
    m: u64,
    owners: &[u8],
    priorities: &mut [u16],
    offsets: &[u16],
    targets: &[u16],
    kept: &mut [u64],
    vertex: u64,
    priority: u64,
    place: &mut u64,
    count: &mut u64,
) -> u64
    ensures { Edits (set_priority vertex priority)
        (record_of n m owners.now priorities.old offsets.now targets.now
        kept.old)
        (record_of n m owners.now priorities.new offsets.now targets.now
        kept.new)
        (told result place.new count.new) }
{
    reckonbough_edits::editing::reckonbough_set_priority(
        n, m, owners, priorities, offsets, targets, kept, vertex, priority, place, count,
    )
}

#[unsafe(no_mangle)]
pub extern "C" fn reckonbough_set_owner(
    n: u64,
    m: u64,
    owners: &mut [u8],
    priorities: &[u16],
    offsets: &[u16],
    targets: &[u16],
    kept: &[u64],
    vertex: u64,
    owner: u64,
    place: &mut u64,
    count: &mut u64,
) -> u64
    ensures { Edits (set_owner vertex owner)
        (record_of n m owners.old priorities.now offsets.now targets.now
        kept.now)
        (record_of n m owners.new priorities.now offsets.now targets.now
        kept.now)
        (told result place.new count.new) }
{
    reckonbough_edits::editing::reckonbough_set_owner(
        n, m, owners, priorities, offsets, targets, kept, vertex, owner, place, count,
    )
}

#[unsafe(no_mangle)]
pub extern "C" fn reckonbough_turn_edge(
    n: u64,
    m: u64,
    owners: &[u8],
    priorities: &[u16],
    offsets: &[u16],
    targets: &mut [u16],
    kept: &[u64],
    edge: u64,
    target: u64,
    place: &mut u64,
    count: &mut u64,
) -> u64
    ensures { Edits (turn_edge edge target)
        (record_of n m owners.now priorities.now offsets.now targets.old
        kept.now)
        (record_of n m owners.now priorities.now offsets.now targets.new
        kept.now)
        (told result place.new count.new) }
{
    reckonbough_edits::editing::reckonbough_turn_edge(
        n, m, owners, priorities, offsets, targets, kept, edge, target, place, count,
    )
}
