// Where what Odd won, the attractor and the first level stand: behind the sets of the priorities and what Even won.
ghost use Rattle.std.specs.Prelude.{◌≡◌};
ghost use Rattle.priority_sets.specs.Sorting.{PriorityPlaceable};
ghost use Rattle.zielonka_level.specs.Level.{odd_place, drawn_place, first_level};

use area::next_set;

// What Odd won stands behind what Even won.
pub fn odd_at(n: usize, m: usize, s: usize) -> usize
    requires { PriorityPlaceable n m s 255 }
    ensures { result ≡ odd_place n m }
{
    next_set(priority_sets::behind_sets(n, m, s), s)
}

// The attractor that was drawn last stands behind it.
pub fn drawn_at(n: usize, m: usize, s: usize) -> usize
    requires { PriorityPlaceable n m s 255 }
    ensures { result ≡ drawn_place n m }
{
    next_set(odd_at(n, m, s), s)
}

// The first level stands behind both.
pub fn levels_at(n: usize, m: usize, s: usize) -> usize
    requires { PriorityPlaceable n m s 255 }
    ensures { result ≡ first_level n m }
{
    next_set(drawn_at(n, m, s), s)
}
