// The members in order, found by words: the lowest set bit of a word gives the next one, and is then cleared.
ghost use Rattle.std.specs.Prelude.{◌≡◌, ◌+◌, ◌≤◌, length};
ghost use Rattle.walk.specs.Walk.{words_from, left, Begins, Walks};

use parity_game::VertexIndex;

// How far a walk has come: the word it is in, and the bits of that word that are still to come.
#[derive(Clone, Copy)]
pub struct Members {
    pub at: usize,
    pub word: u64,
}

// Passes over words of 0, four at a time: no bit is left in a word, nor in those after it up to the one given.
fn pass_over(work: &[u64], base: usize, s: usize, from: usize) -> usize
    requires { (base + s ≤ length work.now) × (s ≤ 64) × (from ≤ 64) }
    ensures { (left (words_from s base work.now) (record { at = from; word = 0 })
        ≡ left (words_from s base work.now) (record { at = result; word = 0 })) ×
        (result ≤ 64) }
{
    let mut at = from;
    while at + 4 < s {
        let i = base + at;
        if work[i + 1] | work[i + 2] | work[i + 3] | work[i + 4] != 0 {
            break;
        }
        at += 4;
    }
    at
}

// The set is the s words of the work area from `base` on, which each call is told anew.
impl Members {
    pub fn new(work: &[u64], base: usize, s: usize) -> Members
        requires { base + s ≤ length work.now }
        ensures { Begins (words_from s base work.now) result }
    {
        if s == 0 {
            return Members { at: 0, word: 0 };
        }
        Members {
            at: 0,
            word: work[base],
        }
    }

    // The next member, or None where nothing is left.
    pub fn next(&mut self, work: &[u64], base: usize, s: usize) -> Option<VertexIndex>
        requires { (base + s ≤ length work.now) × (s ≤ 64) × (self.old.at ≤ 64) }
        ensures { Walks (words_from s base work.now) self.old result self.new }
    {
        let mut at = self.at;
        let mut word = self.word;
        if word == 0 {
            at = pass_over(work, base, s, at);
        }
        while word == 0 {
            at += 1;
            if s <= at {
                return None;
            }
            word = work[base + at];
        }
        let v = 64 * at + u64::trailing_zeros(word) as usize;
        *self = Members {
            at,
            word: word & (word - 1),
        };
        Some(VertexIndex(v))
    }
}
