// What is asked of a whole set: whether it has a member, and how many.
ghost use Rattle.std.specs.Prelude.{◌≡◌, not, ◌*◌, ◌≤◌, length};
ghost use Rattle.rules.specs.Counting.{some};
ghost use Rattle.rules.specs.Words.{set_of};
ghost use Rattle.sets.specs.Size.{size};

// A pass that is not left early: the compiler makes vector code of it.
pub fn is_empty(set: &[u64]) -> bool
    ensures { result ≡ not (some (64 * length set.now) (set_of set.now)) }
{
    let mut any: u64 = 0;
    for &word in set {
        any |= word;
    }
    any == 0
}

// The number of members, by the ones of each word.
pub fn size(set: &[u64]) -> usize
    requires { length set.now ≤ 64 }
    ensures { result ≡ size set.now }
{
    let mut n: usize = 0;
    for word in set {
        n += word.count_ones() as usize;
    }
    n
}
