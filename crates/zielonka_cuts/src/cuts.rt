// V stands at `base`, the next level behind it, the attractor where `zielonka_level` says. `s` is the words of a set,
// `p` the highest priority in V.
ghost use Rattle.std.specs.Prelude.{List, ℕ};
ghost use Rattle.rules.specs.Game.{opponent, parity};
ghost use Rattle.rules.specs.Tables.{Accepted, game_of, tables_of};
ghost use Rattle.rules.specs.Zielonka.{with_priority};
ghost use Rattle.parity_game.specs.Said.{is};
ghost use Rattle.zielonka_level.specs.Level.{on_level, drawn_at};
ghost use Rattle.zielonka_level.specs.Steps.{CutBy, LostBy};
ghost use Rattle.zielonka_level.specs.Pieces.{CallReady, Sorted, Cuttable};

use area::next_set;
use parity_game::{Player, Priority};
use zielonka_level::{drawn_at, give, odd_at, opponent_of};

// Draws to the set in the attractor's place, and puts V without the attractor at the next level.
fn cut(
    owners: &[u8],
    offsets: &[u16],
    targets: &[u16],
    player: Player,
    s: usize,
    work: &mut [u64],
    base: usize,
)
    requires { Cuttable owners.now offsets.now targets.now s base work.old }
    ensures { (priorities : List ℕ) →
        Accepted (tables_of owners.now priorities offsets.now targets.now) →
        CutBy (tables_of owners.now priorities offsets.now targets.now)
        (is player) base
        (on_level (tables_of owners.now priorities offsets.now targets.now) base
        work.old)
        (drawn_at (tables_of owners.now priorities offsets.now targets.now)
        work.old)
        work.old work.new }
{
    let drawn = drawn_at(owners.len(), targets.len(), s);
    attractor::attract(owners, offsets, targets, player.index(), work, base, drawn);
    set_difference::without(s, work, next_set(base, s), base, drawn);
}

// U: the vertices of V with priority p; A: the attractor of U for p's player. V without A goes to the next level.
pub fn attract_highest(
    owners: &[u8],
    offsets: &[u16],
    targets: &[u16],
    p: Priority,
    s: usize,
    work: &mut [u64],
    base: usize,
)
    requires { Sorted owners.now offsets.now targets.now p.0 s base work.old }
    ensures { (priorities : List ℕ) →
        CallReady (tables_of owners.now priorities offsets.now targets.now) s base
        work.old →
        CutBy (tables_of owners.now priorities offsets.now targets.now)
        (parity p.0) base
        (on_level (tables_of owners.now priorities offsets.now targets.now) base
        work.old)
        (with_priority (game_of (tables_of owners.now priorities offsets.now
        targets.now))
        (on_level (tables_of owners.now priorities offsets.now targets.now) base
        work.old) p.0)
        work.old work.new }
{
    let n = owners.len();
    let m = targets.len();
    let of = priority_sets::set_at(n, m, s, p.0);
    let drawn = drawn_at(n, m, s);
    set_difference::meet(s, work, drawn, base, of);
    cut(
        owners,
        offsets,
        targets,
        Player::from_priority(p),
        s,
        work,
        base,
    );
}

// B: the attractor of the set in the attractor's place, which the opponent of p's player won, for that opponent, whose
// it is then. V without B goes to the next level.
pub fn attract_lost(
    owners: &[u8],
    offsets: &[u16],
    targets: &[u16],
    p: Priority,
    s: usize,
    work: &mut [u64],
    base: usize,
)
    requires { Cuttable owners.now offsets.now targets.now s base work.old }
    ensures { (priorities : List ℕ) →
        Accepted (tables_of owners.now priorities offsets.now targets.now) →
        LostBy (tables_of owners.now priorities offsets.now targets.now)
        (opponent (parity p.0)) base
        (on_level (tables_of owners.now priorities offsets.now targets.now) base
        work.old)
        (drawn_at (tables_of owners.now priorities offsets.now targets.now)
        work.old)
        work.old work.new }
{
    let n = owners.len();
    let m = targets.len();
    let player = opponent_of(p);
    cut(owners, offsets, targets, player, s, work, base);
    let odd = odd_at(n, m, s);
    let drawn = drawn_at(n, m, s);
    give(player, s, work, odd, drawn);
}
