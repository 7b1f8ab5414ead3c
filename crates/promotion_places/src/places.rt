// Where R, what the players have won, the number of the current level, a promotion's mark and the levels stand in the
// work area.
ghost use Rattle.std.specs.Prelude.{◌≡◌, ◌+◌, ◌-◌, ◌*◌, ◌≤◌, ◌<◌, ◌^◌};
ghost use Rattle.parity_game.specs.Said.{is};
ghost use Rattle.priority_sets.specs.Sorting.{PriorityPlaceable};
ghost use Rattle.promotion_places.specs.Layout.{held_at, won_behind, deep};

use parity_game::{PRIORITIES, Player};

// R stands behind the sets of the priorities.
pub fn held_at(n: usize, m: usize, s: usize) -> usize
    requires { PriorityPlaceable n m s 255 }
    ensures { result ≡ held_at n m s }
{
    priority_sets::behind_sets(n, m, s)
}

// What a player has won stands behind R, which is at `held`: Even's set, then Odd's.
pub fn won_at(held: usize, s: usize, player: Player) -> usize
    requires { held + 2 * s < 2 ^ 64 }
    ensures { result ≡ won_behind s held (is player) }
{
    match player {
        Player::Even => held + s,
        Player::Odd => held + 2 * s,
    }
}

// The number of the current level stands behind three sets at `held`: R, and what Even and Odd have won.
pub fn depth_at(held: usize, s: usize) -> usize
    requires { held + 3 * s < 2 ^ 64 }
    ensures { result ≡ held + 3 * s }
{
    held + 3 * s
}

// The priority of level k stands behind the number of the current level, which is at `depth`.
pub fn priority_at(depth: usize, k: usize) -> usize
    requires { depth + 1 + k < 2 ^ 64 }
    ensures { result ≡ depth + 1 + k }
{
    depth + 1 + k
}

// The levels stand behind the number of the current one, which is at `depth`, and behind their priorities: one for each
// different priority, and two more.
pub fn levels_at(n: usize, depth: usize) -> usize
    requires { depth ≤ 65535 }
    ensures { result ≡ depth + 1 + deep n }
{
    let most = if n < PRIORITIES { n } else { PRIORITIES };
    depth + 3 + most
}

// The mark of a promotion is the last word before the levels, which are at `levels`: no level has its priority there.
pub fn mark_at(levels: usize) -> usize
    requires { 0 < levels }
    ensures { result ≡ levels - 1 }
{
    levels - 1
}

// Level k stands k sets behind level 0, which is at `levels`.
pub fn level_at(levels: usize, s: usize, k: usize) -> usize
    requires { levels + k * s < 2 ^ 64 }
    ensures { result ≡ levels + k * s }
{
    levels + k * s
}
