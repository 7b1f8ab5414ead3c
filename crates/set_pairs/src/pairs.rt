// Union, difference and copy.
ghost use Rattle.std.specs.Prelude.{ℕ, ◌-◌, max};
ghost use Rattle.set_bits.specs.After.{Combined, Parts, other};
ghost use Rattle.set_pairs.specs.Wordwise.{Follows};

// Each word of the part at `into` becomes `f` of itself and the other part's.
fn combine<F: Fn(u64, u64) -> u64>(words: &mut [u64], into: usize, from: usize, s: usize, f: F)
    requires callable { F.IsAlwaysCallable f }
    requires parts { Parts into from s words.old }
    ensures { (law : ℕ → ℕ → ℕ) → Follows law (F.post f) → Combined law into from s words.old words.new }
{
    for i in 0..s {
        words[into + i] = f(words[into + i], words[from + i]);
    }
}

pub fn union_with(words: &mut [u64], into: usize, from: usize, s: usize)
    requires { Parts into from s words.old }
    ensures { Combined max into from s words.old words.new }
{
    combine(words, into, from, s, |x, y| x | y);
}

pub fn difference_with(words: &mut [u64], into: usize, from: usize, s: usize)
    requires { Parts into from s words.old }
    ensures { Combined ◌-◌ into from s words.old words.new }
{
    combine(words, into, from, s, |x, y| x & !y);
}

pub fn copy_with(words: &mut [u64], into: usize, from: usize, s: usize)
    requires { Parts into from s words.old }
    ensures { Combined other into from s words.old words.new }
{
    combine(words, into, from, s, |_, y| y);
}
