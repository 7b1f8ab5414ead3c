// R is drawn in, and its heads are set apart.
ghost use Rattle.std.specs.Prelude.{List, ℕ, length};
ghost use Rattle.rules.specs.Game.{parity, player_of};
ghost use Rattle.rules.specs.Tables.{Accepted, game_of, tables_of};
ghost use Rattle.promotion_region.specs.Query.{QueryReady, Drawable, RegionDraws, Queried};
ghost use Rattle.promotion_levels.specs.Layout.{Ready};
ghost use Rattle.promotion_levels.specs.Newcomers.{Newcomers};

use area::next_set;
use parity_game::{Player, Priority};

// Region p is drawn in within the current level, at `base`: R stands at `held` then, and the level after is what is
// left. Where no mark stands all of the region is new. Else only the newcomers are at `held`: nothing can be drawn into
// the others, so whoever is drawn in lies in the level after, and leads to a newcomer. The mark is taken away.
fn draw_region(
    owners: &[u8],
    offsets: &[u16],
    targets: &[u16],
    alpha: u8,
    s: usize,
    work: &mut [u64],
    held: usize,
    base: usize,
    mark: usize,
)
    requires { Drawable owners.now offsets.now targets.now alpha s held base mark work.old }
    ensures { RegionDraws owners.now offsets.now targets.now s (player_of alpha)
        work.old work.new }
{
    let below = next_set(base, s);
    if work[mark] == 0 {
        attractor::attract(owners, offsets, targets, alpha, work, base, held);
        set_difference::without(s, work, below, base, held);
    } else {
        sets::union_with(work, below, held, s);
        attractor::attract(owners, offsets, targets, alpha, work, below, held);
        sets::difference_with(work, below, held, s);
        set_difference::without(s, work, held, base, below);
        work[mark] = 0;
    }
}

// R, at `held`, is the attractor of region p within the current level, at `base`, and leaves the level after it. R's
// heads, of priority p, stand where the level after that would, which is not in use.
pub fn query(
    owners: &[u8],
    offsets: &[u16],
    targets: &[u16],
    p: Priority,
    s: usize,
    work: &mut [u64],
    held: usize,
    base: usize,
    mark: usize,
)
    requires { QueryReady owners.now offsets.now targets.now s p.0 held base mark work.old }
    ensures { (priorities : List ℕ) →
        Accepted (tables_of owners.now priorities offsets.now targets.now) →
        Ready (length owners.now) priorities offsets.now targets.now s
        work.old →
        Newcomers (game_of (tables_of owners.now priorities offsets.now targets.now))
        (parity p.0) (length owners.now) (length targets.now) s work.old →
        Queried owners.now priorities offsets.now targets.now s p.0
        work.old work.new }
{
    let below = next_set(base, s);
    let heads = next_set(below, s);
    let alpha = Player::from_priority(p).index();
    draw_region(owners, offsets, targets, alpha, s, work, held, base, mark);
    let of = priority_sets::set_at(owners.len(), targets.len(), s, p.0);
    set_difference::meet(s, work, heads, held, of);
}
