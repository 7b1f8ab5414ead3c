// The highest level below k that the opponent can go to from R, as one more than its number, 0 if there is none.
ghost use Rattle.std.specs.Prelude.{length};
ghost use Rattle.area.specs.Area.{set_at};
ghost use Rattle.promotion_escape.specs.Escapes.{sets_from, level_from, Climbable, Looks, Escapable};
ghost use Rattle.promotion_escape.specs.Highest.{Climbed, HighestOf, HighestLevel};

use parity_game::VertexIndex;
use promotion_levels::level_at;
use walk::Members;

// From level `best` up to the first that does not hold w, or to level k.
fn climb(s: usize, work: &[u64], levels: usize, k: usize, w: VertexIndex, best: usize) -> usize
    requires { Climbable s levels k w.0 best work.now }
    ensures { Climbed (sets_from s s levels work.now) k w.0 best result }
{
    for level in best..k {
        let at = level_at(levels, s, level);
        if !sets::contains(&work[at..at + s], w.0) {
            return level;
        }
    }
    k
}

// Up from `best` along the edges of v that leave level k. One test of both levels: most edges do not lead higher.
fn best_of(
    offsets: &[u16],
    targets: &[u16],
    s: usize,
    work: &[u64],
    levels: usize,
    k: usize,
    v: VertexIndex,
    best: usize,
) -> usize
    requires { Looks offsets.now targets.now s levels k v.0 best work.now }
    ensures { HighestOf offsets.now targets.now (sets_from s s levels work.now) k
        v.0 best result }
{
    let from = v.0;
    let base = level_at(levels, s, k);
    let mut highest = best;
    for e in offsets[from] as usize..offsets[from + 1] as usize {
        let w = targets[e] as usize;
        let at = level_at(levels, s, highest);
        if sets::in_difference(&work[at..at + s], &work[base..base + s], w) {
            highest = climb(s, work, levels, k, VertexIndex(w), highest);
        }
    }
    highest
}

// One more than the highest level below k that a target, outside level k, of an opponent's vertex of R lies in; 0 if
// there is none. Where k is reached there is no higher one, and R is not gone through further: in level 0 not at all.
pub fn best_escape(
    owners: &[u8],
    offsets: &[u16],
    targets: &[u16],
    alpha: u8,
    s: usize,
    work: &[u64],
    held: usize,
    levels: usize,
    k: usize,
) -> usize
    requires { Escapable owners.now offsets.now targets.now s held levels k work.now }
    ensures { HighestLevel owners.now offsets.now targets.now alpha
        (set_at (length owners.now) held work.now)
        (level_from (length owners.now) s levels work.now) k result }
{
    let mut highest = 0;
    let mut walk = Members::new(work, held, s);
    while highest < k {
        let Some(v) = walk.next(work, held, s) else {
            break;
        };
        if owners[v.0] != alpha {
            highest = best_of(offsets, targets, s, work, levels, k, v, highest);
        }
    }
    highest
}
