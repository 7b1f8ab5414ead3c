// The three edits of a game record: one priority, one owner, or one edge's target. Each checks the record, then its own
// two refusals, and writes the one entry that it names; the kept numbers follow a changed priority.
#![tactic(auto)]

ghost use Rattle.std.specs.Prelude.{◌≡◌, leb};
ghost use Rattle.rules.specs.Outcome.{given, ◌then◌};
ghost use Rattle.rules.specs.Record.{record_of, Edits, set_priority, set_owner, turn_edge};
ghost use Rattle.parity_game.specs.Said.{said, verdict, refusal_of};

use parity_game::{Answer, Checked, PRIORITIES, Refusal};

// 41, then what refuses a value that is not below its limit.
fn check_own(size: usize, entry: usize, value: usize, limit: usize, beyond: Refusal) -> Checked
    ensures { verdict result ≡ given 41 entry (leb size entry) then
        given (refusal_of beyond).number (refusal_of beyond).place (leb limit value) }
{
    if size <= entry {
        return Err(Refusal::NoSuchEntry(entry));
    }
    if limit <= value {
        return Err(beyond);
    }
    Ok(())
}

// Sets the priority of a vertex, for every input.
pub fn set_priority(
    n: usize,
    m: usize,
    owners: &[u8],
    priorities: &mut [u16],
    offsets: &[u16],
    targets: &[u16],
    kept: &mut [u64],
    vertex: usize,
    priority: usize,
) -> Answer
    ensures { Edits (set_priority vertex priority)
        (record_of n m owners.now priorities.old offsets.now targets.now
        kept.old)
        (record_of n m owners.now priorities.new offsets.now targets.now
        kept.new)
        (said result) }
{
    record::check_record(n, m, owners, priorities, offsets, targets, kept)?;
    let beyond = Refusal::HighPriority(vertex);
    check_own(n, vertex, priority, PRIORITIES, beyond)?;
    kept_numbers::recount(kept, priorities[vertex] as usize, priority);
    priorities[vertex] = priority as u16;
    Ok(0)
}

// Sets the owner of a vertex, for every input.
pub fn set_owner(
    n: usize,
    m: usize,
    owners: &mut [u8],
    priorities: &[u16],
    offsets: &[u16],
    targets: &[u16],
    kept: &[u64],
    vertex: usize,
    owner: usize,
) -> Answer
    ensures { Edits (set_owner vertex owner)
        (record_of n m owners.old priorities.now offsets.now targets.now
        kept.now)
        (record_of n m owners.new priorities.now offsets.now targets.now
        kept.now)
        (said result) }
{
    record::check_record(n, m, owners, priorities, offsets, targets, kept)?;
    check_own(n, vertex, owner, 2, Refusal::NoSuchOwner(vertex))?;
    owners[vertex] = owner as u8;
    Ok(0)
}

// Turns an edge to another target, for every input.
pub fn turn_edge(
    n: usize,
    m: usize,
    owners: &[u8],
    priorities: &[u16],
    offsets: &[u16],
    targets: &mut [u16],
    kept: &[u64],
    edge: usize,
    target: usize,
) -> Answer
    ensures { Edits (turn_edge edge target)
        (record_of n m owners.now priorities.now offsets.now targets.old
        kept.now)
        (record_of n m owners.now priorities.now offsets.now targets.new
        kept.now)
        (said result) }
{
    record::check_record(n, m, owners, priorities, offsets, targets, kept)?;
    check_own(m, edge, target, n, Refusal::NoSuchTarget(edge))?;
    targets[edge] = target as u16;
    Ok(0)
}
