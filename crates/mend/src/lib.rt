// Mending an incomplete export: edges that lead to no vertex are dropped, and a vertex that is left without an edge
// gets a self loop that its owner loses. What is needed of each output is counted first, so that a refusal writes
// nothing.
#![tactic(auto)]

ghost use Rattle.std.specs.Prelude.{◌≡◌, ◌≤◌};
ghost use Rattle.rules.specs.Mending.{Mends};
ghost use Rattle.rules.specs.Tables.{tables_of};
ghost use Rattle.parity_game.specs.Said.{said, verdict};
ghost use Rattle.theory.specs.Mending.{export_checks};
ghost use Rattle.mend.specs.Laws.{lent_of, room_checks};

use mend_counts::counts::{altered_vertices, dropped_edges};
use mend_counts::priorities::write_priorities;
use mend_edges::write_edges;
use mend_list::write_list;
use parity_game::{Answer, Checked, MOST_EDGES, Refusal};

// 1 to 6, for any four slices whatever they hold.
#[tactic(auto, using(crate::specs::Laws::export_grouped))]
fn check_export(owners: &[u8], priorities: &[u16], offsets: &[u16], targets: &[u16]) -> Checked
    ensures { verdict result ≡ export_checks
        (tables_of owners.now priorities.now offsets.now targets.now) }
{
    let n = owners.len();
    let m = targets.len();
    checks_in_order::check_lengths(n, priorities.len(), offsets.len(), m)?;
    checks_in_order::check_owners(owners)?;
    checks_in_order::check_priorities(priorities)?;
    checks_in_order::check_offsets(offsets, n, m)
}

// 35: each output and the list have the room that is needed.
#[tactic(auto, unfolding(crate::specs::Laws::room_checks))]
fn check_rooms(
    n: usize,
    edges: usize,
    entries: usize,
    priorities: usize,
    offsets: usize,
    targets: usize,
    list: usize,
) -> Checked
    requires { n ≤ 4096 }
    ensures { verdict result ≡ room_checks n edges entries priorities offsets targets list }
{
    if priorities < n || offsets < n + 1 || targets < edges || list < entries {
        return Err(Refusal::ShortOutput);
    }
    Ok(())
}

// Writes the mended tables and the list of what was done, for every input.
pub fn mend(
    owners: &[u8],
    priorities: &[u16],
    offsets: &[u16],
    targets: &[u16],
    new_priorities: &mut [u16],
    new_offsets: &mut [u16],
    new_targets: &mut [u16],
    list: &mut [u16],
) -> Answer
    ensures { Mends
        (tables_of owners.now priorities.now offsets.now targets.now)
        (lent_of new_priorities.old new_offsets.old new_targets.old
        list.old)
        (lent_of new_priorities.new new_offsets.new new_targets.new
        list.new)
        (said result) }
{
    check_export(owners, priorities, offsets, targets)?;
    let dropped = dropped_edges(owners, targets);
    let altered = altered_vertices(owners, offsets, targets);
    let edges = targets.len() - dropped + altered;
    if MOST_EDGES < edges {
        return Err(Refusal::TooManyEdges);
    }
    let entries = dropped + 2 * altered;
    check_rooms(
        owners.len(),
        edges,
        entries,
        new_priorities.len(),
        new_offsets.len(),
        new_targets.len(),
        list.len(),
    )?;
    write_priorities(owners, priorities, offsets, targets, new_priorities);
    write_edges(owners, offsets, targets, new_offsets, new_targets);
    write_list(owners, priorities, offsets, targets, dropped, list);
    Ok(entries as u64)
}
