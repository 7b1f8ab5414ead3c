// The list of what was done: each dropped edge by its old index, then each altered vertex with its old priority.
ghost use Rattle.std.specs.Prelude.{[], ◌≡◌, ◌+◌, ◌≤◌, length};
ghost use Rattle.rules.specs.Mending.{dropped_up_to, altered_up_to, mending_list, overwritten};
ghost use Rattle.rules.specs.Tables.{tables_of};
ghost use Rattle.theory.specs.Mending.{Mendable};
ghost use Rattle.mend_counts.specs.Bare.{bare};
ghost use Rattle.mend_list.specs.Listing.{ListFits};
ghost use Rattle.mend_counts.specs.Placed.{placed};

use mend_counts::counts::kept_edges;

// The dropped edges, from the list's front.
fn write_dropped(owners: &[u8], targets: &[u16], list: &mut [u16])
    requires { (length targets.now ≤ 16384) ×
        (length (dropped_up_to (bare owners.now [] targets.now) (length targets.now)) ≤ length list.old) }
    ensures { list.new ≡
        overwritten (dropped_up_to (bare owners.now [] targets.now) (length targets.now))
        list.old }
{
    let n = owners.len();
    let mut end = 0;
    for (e, &target) in targets.iter().enumerate() {
        if n <= target as usize {
            list[end] = e as u16;
            end += 1;
        }
    }
}

// The altered vertices, each with its old priority, from `at` on.
fn write_altered(
    owners: &[u8],
    priorities: &[u16],
    offsets: &[u16],
    targets: &[u16],
    at: usize,
    list: &mut [u16],
)
    requires { Mendable (tables_of owners.now priorities.now offsets.now targets.now) ×
        (at +
        length
        (altered_up_to (tables_of owners.now priorities.now offsets.now targets.now) (length owners.now)) ≤
        length list.old) }
    ensures { list.new ≡
        placed at
        (altered_up_to
        (tables_of owners.now priorities.now offsets.now targets.now)
        (length owners.now))
        list.old }
{
    let mut end = at;
    for v in 0..owners.len() {
        if kept_edges(owners, offsets, targets, v) == 0 {
            list[end] = v as u16;
            list[end + 1] = priorities[v];
            end += 2;
        }
    }
}

// The list. `dropped` is how many edges are dropped.
pub fn write_list(
    owners: &[u8],
    priorities: &[u16],
    offsets: &[u16],
    targets: &[u16],
    dropped: usize,
    list: &mut [u16],
)
    requires { ListFits (tables_of owners.now priorities.now offsets.now targets.now) dropped list.old }
    ensures { list.new ≡
        overwritten
        (mending_list
        (tables_of owners.now priorities.now offsets.now targets.now))
        list.old }
{
    write_dropped(owners, targets, list);
    write_altered(owners, priorities, offsets, targets, dropped, list);
}
