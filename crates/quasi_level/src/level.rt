// The pieces of a pass, over the sets of its level: V at `base`, then what is drawn. The solver below stands at the
// next level, and leaves what it found in the place of its V. `s` is the words of a set.
ghost use Rattle.std.specs.Prelude.{List, ◌≡◌, ℕ, ◌+◌, ◌*◌, ◌≤◌, length};
ghost use Rattle.area.specs.Area.{set_at, size_at};
ghost use Rattle.highest_priority.specs.Parts.{highest_of};
ghost use Rattle.rules.specs.Game.{player_of};
ghost use Rattle.rules.specs.Tables.{Accepted, tables_of};
ghost use Rattle.quasi_level.specs.Level.{Held, HeldUnder, OpinionReady, TopCut, Droppable, Dropped, Settled, GaveUp, TurnedOver};

use crate::passes::{Passes, Sharp};
use crate::places::next_level;
use area::next_set;
use parity_game::{Player, Priority};

// The size of V.
pub fn size_at(n: usize, s: usize, work: &[u64], base: usize) -> usize
    requires { Held n s base work.now }
    ensures { result ≡ size_at n base work.now }
{
    sets::size(&work[base..base + s])
}

// The highest priority in V, all of whose priorities are below the height.
pub fn highest_at(
    priorities: &[u16],
    s: usize,
    work: &[u64],
    base: usize,
    height: usize,
) -> Priority
    requires { HeldUnder priorities.now s base height work.now }
    ensures { result.0 ≡ highest_of priorities.now
        (set_at (length priorities.now) base work.now) }
{
    let top = highest_priority::one_less(Priority(height));
    highest_priority::get_highest_prio(priorities, work, base, s, top)
}

// U: the vertices of V with priority p; A: the attractor of U for p's player. V without A goes to the next level.
pub fn attract_top(
    owners: &[u8],
    priorities: &[u16],
    offsets: &[u16],
    targets: &[u16],
    p: Priority,
    s: usize,
    work: &mut [u64],
    base: usize,
)
    requires { OpinionReady (tables_of owners.now priorities.now offsets.now targets.now) s base work.old }
    ensures { TopCut (tables_of owners.now priorities.now offsets.now
        targets.now) p.0 base work.old work.new }
{
    let drawn = next_set(base, s);
    let up = next_level(base, s);
    sets::clear(work, drawn, s);
    highest_priority::collect(priorities, p, s, work, base, drawn);
    let alpha = Player::from_priority(p).index();
    attractor::attract(owners, offsets, targets, alpha, work, base, drawn);
    sets::copy_with(work, up, base, s);
    sets::difference_with(work, up, drawn, s);
}

// V loses the attractor of what was found at the next level, for the player who holds it.
fn drop_found(
    owners: &[u8],
    offsets: &[u16],
    targets: &[u16],
    alpha: u8,
    s: usize,
    work: &mut [u64],
    base: usize,
)
    requires { Droppable owners.now offsets.now targets.now alpha s base work.old }
    ensures { (priorities : List ℕ) →
        Accepted (tables_of owners.now priorities offsets.now targets.now) →
        Dropped (tables_of owners.now priorities offsets.now targets.now)
        (player_of alpha) base work.old work.new }
{
    let drawn = next_set(base, s);
    let up = next_level(base, s);
    sets::copy_with(work, drawn, up, s);
    attractor::attract(owners, offsets, targets, alpha, work, base, drawn);
    sets::difference_with(work, base, drawn, s);
}

// The end of a pass: V loses what was found, and where nothing was found nothing is copied.
pub fn settle(
    owners: &[u8],
    offsets: &[u16],
    targets: &[u16],
    alpha: u8,
    s: usize,
    work: &mut [u64],
    base: usize,
    sub: Sharp,
    passes: Passes,
    half: usize,
) -> Passes
    requires { Droppable owners.now offsets.now targets.now alpha s base work.old }
    ensures { (priorities : List ℕ) →
        Accepted (tables_of owners.now priorities offsets.now targets.now) →
        Settled (tables_of owners.now priorities offsets.now targets.now)
        (player_of alpha) base work.old work.new sub passes half result }
{
    let up = next_level(base, s);
    if sets::is_empty(&work[up..up + s]) {
        return passes.after_nothing(sub, half);
    }
    drop_found(owners, offsets, targets, alpha, s, work, base);
    passes.after_found(sub, half)
}

// V becomes empty. An empty V had no dominion to lose.
pub fn give_up(size: usize, s: usize, work: &mut [u64], base: usize) -> Sharp
    requires { base + s ≤ length work.old }
    ensures { GaveUp size s base work.old work.new result }
{
    sets::clear(work, base, s);
    Sharp {
        keeps: size == 0,
        drops: true,
    }
}

// V loses what the other solver gave on all of it, and what that one kept is dropped.
pub fn turn_over(s: usize, work: &mut [u64], base: usize, turned: Sharp) -> Sharp
    requires { base + 9 * s ≤ length work.old }
    ensures { TurnedOver s base work.old work.new turned result }
{
    let up = next_level(base, s);
    sets::difference_with(work, base, up, s);
    Sharp {
        keeps: turned.drops,
        drops: turned.keeps,
    }
}
