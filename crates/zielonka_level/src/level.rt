// The pieces of a call: V stands at `base`, the next level behind it, what Odd won and the attractor where `places`
// says. `s` is the words of a set, `p` the highest priority in V.
ghost use Rattle.std.specs.Prelude.{List, ◌≡◌, ℕ};
ghost use Rattle.rules.specs.Game.{opponent, parity};
ghost use Rattle.rules.specs.Tables.{words, tables_of};
ghost use Rattle.parity_game.specs.Said.{is};
ghost use Rattle.sets.specs.After.{Parts};
ghost use Rattle.zielonka_level.specs.Steps.{AllAt};
ghost use Rattle.zielonka_level.specs.Pieces.{PartWon, Gave, Levels, LostTold, CallReady, Sorted};

use crate::places::{drawn_at, odd_at};
use area::next_set;
use highest_priority::extend_lowest;
use parity_game::{Player, Priority};

// The player who does not have p's parity.
pub fn opponent_of(p: Priority) -> Player
    ensures { is result ≡ opponent (parity p.0) }
{
    Player::from_priority(p).opponent()
}

// What a player won of the set at `of`, by what Odd won, goes to `into`.
fn part_won(player: Player, s: usize, work: &mut [u64], into: usize, of: usize, odd: usize)
    requires { Parts into of s work.old × Parts into odd s work.old }
    ensures { (n : ℕ) → s ≡ words n →
        PartWon (is player) n into of odd work.old work.new }
{
    match player {
        Player::Even => set_difference::without(s, work, into, of, odd),
        Player::Odd => set_difference::meet(s, work, into, of, odd),
    }
}

// The members of the set at `from` are a player's now.
pub fn give(player: Player, s: usize, work: &mut [u64], odd: usize, from: usize)
    requires { Parts odd from s work.old }
    ensures { (n : ℕ) → s ≡ words n →
        Gave (is player) n odd from work.old work.new }
{
    match player {
        Player::Even => sets::difference_with(work, odd, from, s),
        Player::Odd => sets::union_with(work, odd, from, s),
    }
}

// Whether the opponent of p's player won nothing at the next level. What it won there goes to the attractor's place.
pub fn lost_nothing(
    n: usize,
    m: usize,
    p: Priority,
    s: usize,
    work: &mut [u64],
    base: usize,
) -> bool
    requires { Levels n m s base work.old }
    ensures { LostTold (opponent (parity p.0)) n m s base work.old work.new result }
{
    let odd = odd_at(n, m, s);
    let drawn = drawn_at(n, m, s);
    part_won(opponent_of(p), s, work, drawn, next_set(base, s), odd);
    sets::is_empty(&work[drawn..drawn + s])
}

// p's player wins V, and its vertices of priority p take their lowest-numbered successor in V. They are put in the
// attractor's place, which is free now.
pub fn win_everything(
    owners: &[u8],
    offsets: &[u16],
    targets: &[u16],
    p: Priority,
    s: usize,
    work: &mut [u64],
    base: usize,
)
    requires { Sorted owners.now offsets.now targets.now p.0 s base work.old }
    ensures { (priorities : List ℕ) →
        CallReady (tables_of owners.now priorities offsets.now targets.now) s base
        work.old →
        AllAt (tables_of owners.now priorities offsets.now targets.now) p.0 base
        work.old work.new }
{
    let n = owners.len();
    let m = targets.len();
    let of = priority_sets::set_at(n, m, s, p.0);
    let odd = odd_at(n, m, s);
    let drawn = drawn_at(n, m, s);
    set_difference::meet(s, work, drawn, base, of);
    extend_lowest(owners, offsets, targets, p, s, work, base, drawn);
    give(Player::from_priority(p), s, work, odd, base);
}
