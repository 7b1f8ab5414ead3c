// A third set made of two.
ghost use Rattle.std.specs.Prelude.{◌≡◌, ◌-◌, ℕ, min};
ghost use Rattle.rules.specs.Tables.{words};
ghost use Rattle.sets.specs.After.{Parts};
ghost use Rattle.sets.specs.Wordwise.{Follows};
ghost use Rattle.set_difference.specs.Without.{TakenTo, WithoutAt, CommonAt};

// Each word of the set at `into` becomes `f` of the two others'.
fn make<F: Fn(u64, u64) -> u64>(
    s: usize,
    work: &mut [u64],
    into: usize,
    one: usize,
    other: usize,
    f: F,
)
    requires callable { F.IsAlwaysCallable f }
    requires parts { Parts into one s work.old × Parts into other s work.old }
    ensures { (law : ℕ → ℕ → ℕ) → Follows law (F.post f) → TakenTo law into one other s work.old work.new }
{
    for i in 0..s {
        work[into + i] = f(work[one + i], work[other + i]);
    }
}

// The set at `into` becomes the one without the other, word by word.
pub fn without(s: usize, work: &mut [u64], into: usize, one: usize, other: usize)
    requires { Parts into one s work.old × Parts into other s work.old }
    ensures { (n : ℕ) → s ≡ words n →
        WithoutAt n into one other work.old work.new }
{
    make(s, work, into, one, other, |x, y| x & !y);
}

// The set at `into` becomes what both have, word by word.
pub fn meet(s: usize, work: &mut [u64], into: usize, one: usize, other: usize)
    requires { Parts into one s work.old × Parts into other s work.old }
    ensures { (n : ℕ) → s ≡ words n →
        CommonAt n into one other work.old work.new }
{
    make(s, work, into, one, other, |x, y| x & y);
}
