// How many edges a vertex keeps, and how many edges are dropped and vertices altered in all.
ghost use Rattle.std.specs.Prelude.{[], ◌≡◌, ◌<◌, length};
ghost use Rattle.rules.specs.Counting.{count};
ghost use Rattle.rules.specs.Mending.{kept_targets, altered, dropped_up_to};
ghost use Rattle.theory.specs.Mending.{Shaped};
ghost use Rattle.mend_counts.specs.Bare.{bare};

// The edges of v that lead to a vertex.
pub fn kept_edges(owners: &[u8], offsets: &[u16], targets: &[u16], v: usize) -> usize
    requires { Shaped (bare owners.now offsets.now targets.now) × (v < length owners.now) }
    ensures { result ≡ length (kept_targets (bare owners.now offsets.now targets.now) v) }
{
    let n = owners.len();
    let mut kept = 0;
    for e in offsets[v]..offsets[v + 1] {
        if (targets[e as usize] as usize) < n {
            kept += 1;
        }
    }
    kept
}

// The edges that lead to no vertex.
pub fn dropped_edges(owners: &[u8], targets: &[u16]) -> usize
    ensures { result
        ≡ length (dropped_up_to (bare owners.now [] targets.now)
        (length targets.now)) }
{
    let n = owners.len();
    let mut dropped = 0;
    for &target in targets {
        if n <= target as usize {
            dropped += 1;
        }
    }
    dropped
}

// The vertices that keep no edge.
pub fn altered_vertices(owners: &[u8], offsets: &[u16], targets: &[u16]) -> usize
    requires { Shaped (bare owners.now offsets.now targets.now) }
    ensures { result ≡
        count (length owners.now)
        (altered (bare owners.now offsets.now targets.now)) }
{
    let mut alone = 0;
    for v in 0..owners.len() {
        if kept_edges(owners, offsets, targets, v) == 0 {
            alone += 1;
        }
    }
    alone
}
