// R goes over to a higher region.
ghost use Rattle.std.specs.Prelude.{ℕ, ◌≡◌};
ghost use Rattle.rules.specs.Tables.{words};
ghost use Rattle.promotion_moves.specs.Promotion.{Promotable, PromotedTo};

use area::next_set;

// Level j, at `level`, is the current one: the level after it loses R and is the last, so that all else in it goes back
// to its priorities. R, at `held`, are the newcomers of the region of level j, and the mark says that it has others.
pub fn promote(
    s: usize,
    work: &mut [u64],
    held: usize,
    depth: usize,
    level: usize,
    j: usize,
    mark: usize,
)
    requires { Promotable s held depth level mark work.old }
    ensures { (n : ℕ) → s ≡ words n →
        PromotedTo n s held depth level mark j work.old work.new }
{
    let below = next_set(level, s);
    sets::difference_with(work, below, held, s);
    work[depth] = j as u64;
    work[mark] = 1;
}
