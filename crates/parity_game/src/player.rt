// Vertex numbers and priorities kept apart, and the two players.
ghost use Rattle.std.specs.Prelude.{◌≡◌, ◌≤◌};
ghost use Rattle.rules.specs.Game.{opponent, parity, player_of};
ghost use Rattle.parity_game.specs.Said.{is};

// The index of a vertex.
#[derive(Clone, Copy, Debug, PartialEq, Eq)]
pub struct VertexIndex(pub usize);

// A priority, or the number of a region.
#[derive(Clone, Copy, Debug, PartialEq, Eq)]
pub struct Priority(pub usize);

#[derive(Clone, Copy, Debug, PartialEq, Eq)]
pub enum Player {
    Even,
    Odd,
}

impl Player {
    // The player whose parity a priority has.
    pub fn from_priority(p: Priority) -> Player
        ensures { is result ≡ parity p.0 }
    {
        if p.0 % 2 == 0 {
            Player::Even
        } else {
            Player::Odd
        }
    }

    // 0 is Even, anything else Odd.
    pub fn from_index(i: u8) -> Player
        ensures { is result ≡ player_of i }
    {
        if i == 0 { Player::Even } else { Player::Odd }
    }

    // 0 for Even, 1 for Odd.
    pub fn index(self) -> u8
        ensures { (player_of result ≡ is self) × (result ≤ 1) }
    {
        match self {
            Player::Even => 0,
            Player::Odd => 1,
        }
    }

    pub fn opponent(self) -> Player
        ensures { is result ≡ opponent (is self) }
    {
        match self {
            Player::Even => Player::Odd,
            Player::Odd => Player::Even,
        }
    }
}
