// The two lines that the program prints: what both engines gave, and a refusal.
ghost use Rattle.std.specs.Prelude.{◌≡◌, ◌+◌, ◌*◌, ◌≤◌, length};
ghost use Rattle.rules.specs.Printing.{refused_line};
ghost use Rattle.rules.specs.Words.{set_of};
ghost use Rattle.putting.specs.Puts.{Puts};
ghost use Rattle.printing.specs.Line.{counted_bytes, decided_by, winners_bytes, line_bytes};

use putting::{put_number, put_winners, put_word};

// `file refused`, the number and the place.
pub fn refused_line(number: u64, place: u64, out: &mut [u8]) -> usize
    requires { 64 ≤ length out.old }
    ensures { Puts 0 (refused_line number place) out.old out.new result }
{
    let at = put_word(b"file refused ", out, 0);
    let at = put_number(number, out, at);
    let at = put_word(b" ", out, at);
    let at = put_number(place, out, at);
    put_word(b"\n", out, at)
}

// What an engine needed, or `-` where that was more than its budget.
fn put_counted(counted: Option<u64>, out: &mut [u8], at: usize) -> usize
    requires { at + 20 ≤ length out.old }
    ensures { Puts at (counted_bytes counted) out.old out.new result × (result ≤ at + 20) }
{
    match counted {
        Some(count) => put_number(count, out, at),
        None => put_word(b"-", out, at),
    }
}

// Whether an engine kept its budget.
fn decided(calls: Option<u64>, rounds: Option<u64>) -> bool
    ensures { result ≡ decided_by calls rounds }
{
    calls.is_some() || rounds.is_some()
}

// The winners, or `-` where there are none to tell.
fn put_decided(told: bool, n: usize, odd: &[u64], out: &mut [u8], at: usize) -> usize
    requires { (n ≤ 64 * length odd.now) × (at + n + 1 ≤ length out.old) }
    ensures { Puts at (winners_bytes told n (set_of odd.now)) out.old out.new result }
{
    if told {
        put_winners(n, odd, out, at)
    } else {
        put_word(b"-", out, at)
    }
}

// `file`, the winners, the calls and the rounds. Where an engine kept its budget, `odd` is Odd's set.
pub fn solved_line(
    n: usize,
    odd: &[u64],
    calls: Option<u64>,
    rounds: Option<u64>,
    out: &mut [u8],
) -> usize
    requires { (n ≤ 64 * length odd.now) × (n + 64 ≤ length out.old) }
    ensures { Puts 0 (line_bytes n (set_of odd.now) calls rounds) out.old out.new result }
{
    let at = put_word(b"file ", out, 0);
    let at = put_decided(decided(calls, rounds), n, odd, out, at);
    let at = put_word(b" ", out, at);
    let at = put_counted(calls, out, at);
    let at = put_word(b" ", out, at);
    let at = put_counted(rounds, out, at);
    put_word(b"\n", out, at)
}
