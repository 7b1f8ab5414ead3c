// How a level begins.
ghost use Rattle.std.specs.Prelude.{List, ℕ};
ghost use Rattle.area.specs.Area.{free};
ghost use Rattle.priority_sets.specs.Sorting.{SetsOf};
ghost use Rattle.promotion_levels.specs.LevelBegins.{LevelBeginnable, LevelBegun};
ghost use Rattle.promotion_levels.specs.Descending.{Descends, Descended};

use area::{Area, next_set};
use highest_priority::get_highest_prio;
use parity_game::Priority;
use promotion_places::{depth_at, level_at, priority_at};
use promotion_sets::{forget, without};

// The level at `base` begins with priority p, the highest in it: R, at `held`, is its vertices of priority p, which
// have no entry, and the level after it is the rest.
pub fn begin_level(
    n: usize,
    m: usize,
    p: Priority,
    s: usize,
    work: &mut [u64],
    held: usize,
    base: usize,
    entries: usize,
)
    requires { LevelBeginnable n m p.0 s held base entries work.old }
    ensures { (priorities : List ℕ) → SetsOf n priorities n (free n m) work.old →
        LevelBegun n priorities p.0 s held base entries work.old work.new }
{
    let of = priority_sets::set_at(n, m, s, p.0);
    let next = next_set(base, s);
    without(s, work, next, base, of);
    without(s, work, held, base, next);
    forget(s, work, held, entries);
}

// Level k becomes the current one: its priority is the highest in it, which is at most `bound`, and it begins.
pub fn descend(
    priorities: &[u16],
    m: usize,
    s: usize,
    work: &mut [u64],
    held: usize,
    levels: usize,
    k: usize,
    bound: Priority,
) -> Priority
    requires { Descends priorities.now m s held levels k bound.0 work.old }
    ensures { Descended priorities.now m s k result.0 work.old work.new }
{
    let n = priorities.len();
    let base = level_at(levels, s, k);
    let depth = depth_at(held, s);
    let entries = Area { n, m, s }.entries();
    let p = get_highest_prio(priorities, work, base, s, bound);
    work[priority_at(depth, k)] = p.0 as u64;
    work[depth] = k as u64;
    begin_level(n, m, p, s, work, held, base, entries);
    p
}
