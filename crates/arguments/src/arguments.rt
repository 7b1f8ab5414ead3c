// What the program's arguments ask for: the budget of each engine, or 36.
ghost use Rattle.std.specs.Prelude.{true, ◌≡◌, ◌≤◌, length};
ghost use Rattle.rules.specs.Counting.{every_of};
ghost use Rattle.rules.specs.Pgsolver.{is_digit};
ghost use Rattle.rules.specs.Printing.{value_after};
ghost use Rattle.arguments.specs.Asking.{Asks};

// The budget of each engine unless an argument gives another.
const DEFAULT_BUDGET: u64 = 65536;

fn all_digits(bytes: &[u8]) -> bool
    ensures { result ≡ every_of bytes.now is_digit }
{
    for b in bytes {
        if !b.is_ascii_digit() {
            return false;
        }
    }
    true
}

fn value_of(digits: &[u8]) -> u64
    requires { (length digits.now ≤ 9) × (every_of digits.now is_digit ≡ true) }
    ensures { result ≡ value_after 0 digits.now }
{
    let mut value = 0;
    for &d in digits {
        value = 10 * value + (d - 48) as u64;
    }
    value
}

// `given` counts the program's own name too, and `first` is the argument after it. `None` is 36.
pub fn ask(given: usize, first: &[u8]) -> Option<u64>
    ensures { Asks given first.now result }
{
    if given <= 1 {
        return Some(DEFAULT_BUDGET);
    }
    if given > 2 || first.len() == 0 || first.len() > 9 {
        return None;
    }
    if !all_digits(first) {
        return None;
    }
    Some(value_of(first))
}
