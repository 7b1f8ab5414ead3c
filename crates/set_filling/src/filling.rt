// What becomes of a whole set whatever it held: nothing, the vertices below n, or another set.
ghost use Rattle.std.specs.Prelude.{◌≡◌, ◌+◌, ◌*◌, ◌≤◌, length};
ghost use Rattle.set_bits.specs.After.{Cleared, Filled};

use set_bits::insert;

// The s words from `at` on become 0.
pub fn clear(words: &mut [u64], at: usize, s: usize)
    requires { at + s ≤ length words.old }
    ensures { Cleared at s words.old words.new }
{
    words[at..at + s].fill(0);
}

// A set becomes another, of as many words. A loop, since `copy_from_slice` calls `memmove`, which nothing else of the
// library for C needs.
pub fn copy_from(set: &mut [u64], from: &[u64])
    requires { length set.old ≡ length from.now }
    ensures { set.new ≡ from.now }
{
    for i in 0..from.len() {
        set[i] = from[i];
    }
}

// All bits of the first words become 1.
fn fill_words(set: &mut [u64], full: usize)
    requires { full ≤ length set.old }
    ensures { Filled (64 * full) set.old set.new }
{
    set[..full].fill(u64::MAX);
}

// The vertices below n come in: whole words, then what is left of the last one.
pub fn fill(set: &mut [u64], n: usize)
    requires { n ≤ 64 * length set.old }
    ensures { Filled n set.old set.new }
{
    let full = n / 64;
    fill_words(set, full);
    for v in 64 * full..n {
        insert(set, v);
    }
}
