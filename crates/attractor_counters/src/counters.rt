// Counters: how many of a vertex's edges end inside V, parallel edges counted, less those that were met. A counter is
// made when its vertex is first met: most vertices never are.
ghost use Rattle.std.specs.Prelude.{◌≡◌, length};
ghost use Rattle.rules.specs.Tables.{targets_of};
ghost use Rattle.rules.specs.Words.{set_of};
ghost use Rattle.basics.specs.Sums.{count_of};
ghost use Rattle.area.specs.Area.{set_at};
ghost use Rattle.area.specs.EdgesOf.{EdgesOf};
ghost use Rattle.attractor_counters.specs.Counters.{inside_count, CountsDown, CountedDown};

use area::Area;

// The edges of v that end inside the set.
fn inside_edges(offsets: &[u16], targets: &[u16], v: usize, set: &[u64]) -> u64
    requires { EdgesOf offsets.now targets.now v set.now }
    ensures { result ≡ count_of (targets_of offsets.now targets.now v) (set_of
        set.now) }
{
    let mut inside: u64 = 0;
    for e in offsets[v] as usize..offsets[v + 1] as usize {
        if sets::contains(set, targets[e] as usize) {
            inside += 1;
        }
    }
    inside
}

// One edge of v fewer is to be met; where v was not met before, its counter is made first. Gives what is left.
pub fn count_down(
    offsets: &[u16],
    targets: &[u16],
    n: usize,
    s: usize,
    work: &mut [u64],
    within: usize,
    v: usize,
) -> u64
    requires { CountsDown offsets.now targets.now n s within work.old v }
    ensures { CountedDown (inside_count offsets.now targets.now (set_at n within work.old)) n
        (length targets.now) v work.old work.new result }
{
    let m = targets.len();
    let area = Area { n, m, s };
    let met = area.met();
    let at = area.counters() + v;
    if sets::contains(&work[met..met + s], v) {
        let left = work[at] - 1;
        work[at] = left;
        return left;
    }
    sets::insert(&mut work[met..met + s], v);
    let left = inside_edges(offsets, targets, v, &work[within..within + s]) - 1;
    work[at] = left;
    left
}
