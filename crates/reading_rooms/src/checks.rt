// 9 and 10, before a text is read, and 31, after it. Neither check writes anything.
ghost use Rattle.std.specs.Prelude.{◌≡◌, ◌≤◌, length};
ghost use Rattle.parity_game.specs.Said.{verdict};
ghost use Rattle.reading_rooms.specs.Said.{size_checks, header_from, seen_checks};

use parity_game::{Checked, Refusal};

// While a text is read an offset is below this; what is above says how often the identifier was seen, up to twice.
pub const SEEN: u16 = 16384;

// 9 and 10, by the lengths of the four tables and of the work area.
pub fn check_rooms(
    owners: usize,
    priorities: usize,
    offsets: usize,
    targets: usize,
    work: usize,
) -> Checked
    ensures { verdict result ≡ size_checks owners priorities offsets targets work }
{
    if priorities != owners || offsets == 0 || offsets - 1 != owners {
        return Err(Refusal::BadSize);
    }
    if work < targets || work - targets < owners {
        return Err(Refusal::ShortWork);
    }
    Ok(())
}

// 31: the lowest identifier below n that was not seen exactly once, else n where the text says another N than n - 1.
pub fn check_identifiers(n: usize, said: bool, highest: u16, offsets: &[u16]) -> Checked
    requires { n ≤ length offsets.now }
    ensures { verdict result ≡ seen_checks n (header_from said highest) offsets.now }
{
    for (i, &word) in offsets[0..n].iter().enumerate() {
        if word / SEEN != 1 {
            return Err(Refusal::BadIdentifier(i));
        }
    }
    if said && highest as usize + 1 != n {
        return Err(Refusal::BadIdentifier(n));
    }
    Ok(())
}
