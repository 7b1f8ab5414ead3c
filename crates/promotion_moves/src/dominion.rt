// R is a dominion.
ghost use Rattle.std.specs.Prelude.{List, ℕ};
ghost use Rattle.rules.specs.Game.{parity, player_of};
ghost use Rattle.rules.specs.Tables.{Accepted, tables_of};
ghost use Rattle.promotion_moves.specs.Dominion.{DominionReady, DrawReady, DrawnIn, Dominated};

use parity_game::{Player, Priority};
use promotion_levels::won_at;

// What R, at `held`, attracts among the unsolved vertices, which are level 0, comes to it. In level 0 it is drawn in
// already.
fn draw_unsolved(
    owners: &[u8],
    offsets: &[u16],
    targets: &[u16],
    alpha: u8,
    work: &mut [u64],
    held: usize,
    levels: usize,
    k: usize,
)
    requires { DrawReady owners.now offsets.now targets.now alpha k held levels work.old }
    ensures { (priorities : List ℕ) →
        Accepted (tables_of owners.now priorities offsets.now targets.now) →
        DrawnIn (tables_of owners.now priorities offsets.now targets.now)
        (player_of alpha) held levels work.old work.new }
{
    if 0 < k {
        attractor::attract(owners, offsets, targets, alpha, work, levels, held);
    }
}

// What R, at `held`, attracts among the unsolved vertices, which are level 0, is won and solved. R's place has it then.
// R was drawn in within level k.
pub fn solve_dominion(
    owners: &[u8],
    offsets: &[u16],
    targets: &[u16],
    p: Priority,
    s: usize,
    work: &mut [u64],
    held: usize,
    levels: usize,
    k: usize,
)
    requires { DominionReady owners.now offsets.now targets.now s (parity p.0) k held levels work.old }
    ensures { (priorities : List ℕ) →
        Accepted (tables_of owners.now priorities offsets.now targets.now) →
        Dominated owners.now priorities offsets.now targets.now s p.0 held levels
        work.old work.new }
{
    let player = Player::from_priority(p);
    draw_unsolved(
        owners,
        offsets,
        targets,
        player.index(),
        work,
        held,
        levels,
        k,
    );
    let won = won_at(held, s, player);
    sets::union_with(work, won, held, s);
    sets::difference_with(work, levels, held, s);
}
