// The pieces of a line: a word, a number, the winners.
ghost use Rattle.std.specs.Prelude.{◌*◌, ◌≤◌, length};
ghost use Rattle.rules.specs.Decimal.{decimal};
ghost use Rattle.rules.specs.Printing.{winner_digits};
ghost use Rattle.rules.specs.Words.{set_of};
ghost use Rattle.putting.specs.Puts.{Fits, Puts};

pub fn put_word(word: &[u8], out: &mut [u8], at: usize) -> usize
    requires { Fits at word.now out.old }
    ensures { Puts at word.now out.old out.new result }
{
    let end = at + word.len();
    out[at..end].copy_from_slice(word);
    end
}

// Decimal digits: those of a tenth of the value, and one more.
pub fn put_number(value: u64, out: &mut [u8], at: usize) -> usize
    requires { Fits at (decimal value) out.old }
    ensures { Puts at (decimal value) out.old out.new result }
{
    if value < 10 {
        out[at] = 48 + value as u8;
        return at + 1;
    }
    let last = put_number(value / 10, out, at);
    out[last] = 48 + (value % 10) as u8;
    last + 1
}

// The winner of each of n vertices, from the words of Odd's set.
pub fn put_winners(n: usize, odd: &[u64], out: &mut [u8], at: usize) -> usize
    requires { (n ≤ 64 * length odd.now) × Fits at (winner_digits n (set_of odd.now)) out.old }
    ensures { Puts at (winner_digits n (set_of odd.now)) out.old out.new result }
{
    for v in 0..n {
        let digit = if sets::contains(odd, v) { 49 } else { 48 };
        out[at + v] = digit;
    }
    at + n
}
