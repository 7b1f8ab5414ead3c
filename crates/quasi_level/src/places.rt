// Where the levels of the recursion stand in the work area.
ghost use Rattle.std.specs.Prelude.{◌≡◌, ◌+◌, ◌*◌, ◌<◌, ◌^◌};
ghost use Rattle.quasi_level.specs.Level.{next_level};

// The level after the one at `base` begins eight sets on. `s` is the words of a set.
pub fn next_level(base: usize, s: usize) -> usize
    requires { base + 8 * s < 2 ^ 64 }
    ensures { result ≡ next_level s base }
{
    base + 8 * s
}
