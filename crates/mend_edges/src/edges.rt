// The new offsets and targets: a vertex's edges that lead to a vertex stay in order, and one that keeps none gets a
// self loop.
ghost use Rattle.std.specs.Prelude.{◌≡◌, ◌+◌, ◌<◌, ◌≤◌, length};
ghost use Rattle.rules.specs.Mending.{kept_targets, new_targets_of, mended, overwritten};
ghost use Rattle.theory.specs.Mending.{Shaped};
ghost use Rattle.mend_counts.specs.Bare.{bare};
ghost use Rattle.mend_counts.specs.Placed.{WrittenUpTo};
ghost use Rattle.mend_edges.specs.Edges.{EdgesFit};

// The edges of v that lead to a vertex, from `at` on. Gives where they end.
fn write_kept(
    owners: &[u8],
    offsets: &[u16],
    targets: &[u16],
    v: usize,
    at: usize,
    new_targets: &mut [u16],
) -> usize
    requires { EdgesFit (bare owners.now offsets.now targets.now) v at new_targets.old }
    ensures { WrittenUpTo at (kept_targets (bare owners.now offsets.now targets.now) v)
        new_targets.old new_targets.new result }
{
    let n = owners.len();
    let mut end = at;
    for e in offsets[v]..offsets[v + 1] {
        let w = targets[e as usize];
        if (w as usize) < n {
            new_targets[end] = w;
            end += 1;
        }
    }
    end
}

// The new edges of v.
fn write_targets(
    owners: &[u8],
    offsets: &[u16],
    targets: &[u16],
    v: usize,
    at: usize,
    new_targets: &mut [u16],
) -> usize
    requires { EdgesFit (bare owners.now offsets.now targets.now) v at new_targets.old }
    ensures { WrittenUpTo at (new_targets_of (bare owners.now offsets.now targets.now) v)
        new_targets.old new_targets.new result }
{
    let end = write_kept(owners, offsets, targets, v, at, new_targets);
    if end != at {
        return end;
    }
    new_targets[at] = v as u16;
    at + 1
}

// Both tables, vertex by vertex.
pub fn write_edges(
    owners: &[u8],
    offsets: &[u16],
    targets: &[u16],
    new_offsets: &mut [u16],
    new_targets: &mut [u16],
)
    requires { Shaped (bare owners.now offsets.now targets.now) ×
        (length owners.now < length new_offsets.old) ×
        (length (mended (bare owners.now offsets.now targets.now)).targets ≤ 16384) ×
        (length (mended (bare owners.now offsets.now targets.now)).targets ≤ length new_targets.old) }
    ensures { (new_offsets.new ≡
        overwritten (mended (bare owners.now offsets.now targets.now)).offsets
        new_offsets.old) ×
        (new_targets.new ≡
        overwritten (mended (bare owners.now offsets.now targets.now)).targets
        new_targets.old) }
{
    let n = owners.len();
    let mut at = 0;
    for v in 0..n {
        new_offsets[v] = at as u16;
        at = write_targets(owners, offsets, targets, v, at, new_targets);
    }
    new_offsets[n] = at as u16;
}
