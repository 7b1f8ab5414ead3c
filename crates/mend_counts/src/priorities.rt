// The new priorities: a vertex without an edge to a vertex gets its owner's losing one, every other keeps its own.
ghost use Rattle.std.specs.Prelude.{◌≡◌, ◌<◌, ◌≤◌, length};
ghost use Rattle.rules.specs.Mending.{new_priority, mended, overwritten};
ghost use Rattle.rules.specs.Tables.{tables_of};
ghost use Rattle.theory.specs.Mending.{Mendable};

use crate::counts::kept_edges;

// The new priority of v: a dead end's owner loses there.
fn new_priority(
    owners: &[u8],
    priorities: &[u16],
    offsets: &[u16],
    targets: &[u16],
    v: usize,
) -> u16
    requires { Mendable (tables_of owners.now priorities.now offsets.now targets.now) ×
        (v < length owners.now) }
    ensures { result ≡
        new_priority
        (tables_of owners.now priorities.now offsets.now targets.now) v }
{
    if kept_edges(owners, offsets, targets, v) != 0 {
        return priorities[v];
    }
    if owners[v] == 0 {
        return 1;
    }
    0
}

// The new table, entry by entry.
pub fn write_priorities(
    owners: &[u8],
    priorities: &[u16],
    offsets: &[u16],
    targets: &[u16],
    new_priorities: &mut [u16],
)
    requires { Mendable (tables_of owners.now priorities.now offsets.now targets.now) ×
        (length owners.now ≤ length new_priorities.old) }
    ensures { new_priorities.new ≡
        overwritten
        (mended
        (tables_of owners.now priorities.now offsets.now targets.now)
        ).priorities
        new_priorities.old }
{
    for v in 0..owners.len() {
        new_priorities[v] = new_priority(owners, priorities, offsets, targets, v);
    }
}
