// The highest priority in V, the vertices that have it, and the lowest-numbered successor inside V of each of them.
ghost use Rattle.std.specs.Prelude.{◌≡◌, ◌-◌, length};
ghost use Rattle.area.specs.Area.{set_at};
ghost use Rattle.highest_priority.specs.Parts.{highest_of, Searchable, Collects, Collected};
ghost use Rattle.highest_priority.specs.Extending.{Extends, Extended};

use area::Area;
use parity_game::{Player, Priority, VertexIndex};
use successors::inside::lowest_inside;
use walk::Members;

// The number before p, or 0.
pub fn one_less(p: Priority) -> Priority
    ensures { result.0 ≡ p.0 - 1 }
{
    Priority(p.0.saturating_sub(1))
}

// The highest priority in V, its members found by words. No priority in V is above `top`, so a member that has it ends
// the search.
pub fn get_highest_prio(
    priorities: &[u16],
    work: &[u64],
    base: usize,
    s: usize,
    top: Priority,
) -> Priority
    requires { Searchable priorities.now s base top.0 work.now }
    ensures { result.0 ≡ highest_of priorities.now
        (set_at (length priorities.now) base work.now) }
{
    let mut highest: u16 = 0;
    let mut walk = Members::new(work, base, s);
    while let Some(VertexIndex(v)) = walk.next(work, base, s) {
        let p = priorities[v];
        if p as usize == top.0 {
            return top;
        }
        highest = highest.max(p);
    }
    Priority(highest as usize)
}

// U: the members of V with priority p, found by words.
pub fn collect(
    priorities: &[u16],
    p: Priority,
    s: usize,
    work: &mut [u64],
    within: usize,
    into: usize,
)
    requires { Collects (length priorities.now) s within into work.old }
    ensures { Collected priorities.now p.0 within into work.old work.new }
{
    let mut walk = Members::new(work, within, s);
    while let Some(VertexIndex(v)) = walk.next(work, within, s) {
        if priorities[v] as usize == p.0 {
            sets::insert(&mut work[into..into + s], v);
        }
    }
}

// The Rust's `extend_arbitrary`: each vertex of U that p's player owns takes an edge inside V. Here it is the
// lowest-numbered successor, so that the choice is the same each time. V stands at `base`, U at `from`.
pub fn extend_lowest(
    owners: &[u8],
    offsets: &[u16],
    targets: &[u16],
    p: Priority,
    s: usize,
    work: &mut [u64],
    base: usize,
    from: usize,
)
    requires { Extends owners.now offsets.now targets.now s base from work.old }
    ensures { Extended owners.now offsets.now targets.now p.0 base from
        work.old work.new }
{
    let n = owners.len();
    let m = targets.len();
    let entries = Area { n, m, s }.entries();
    let alpha = Player::from_priority(p).index();
    let mut walk = Members::new(work, from, s);
    while let Some(v) = walk.next(work, from, s) {
        if owners[v.0] == alpha {
            let w = lowest_inside(n, offsets, targets, v, &work[base..base + s]);
            work[entries + v.0] = w;
        }
    }
}
