// The new number of each priority that is used, the lowest and fewest numbers that keep order, not strictly, and
// parity; and a table written by them. The rule itself is in `next_number` alone.
#![tactic(auto)]

ghost use Rattle.std.specs.Prelude.{map, ◌≡◌, ◌≤◌, length, get_or, IfSome};
ghost use Rattle.rules.specs.Compaction.{next_number};
ghost use Rattle.compaction_numbers.specs.Marks.{Small, Marks, Numbers, last_given};

use parity_game::PRIORITIES;

// Which priorities are used: 1 at each.
pub fn mark(priorities: &[u16]) -> [u8; PRIORITIES]
    requires { Small priorities.now }
    ensures { Marks priorities.now result }
{
    let mut used = [0u8; PRIORITIES];
    for &p in priorities {
        used[p as usize] = 1;
    }
    used
}

// The new number of p: the lowest of its parity that is not below `last`, the last new number given, or a first one.
fn next_number(last: Option<u16>, p: u16) -> u16
    requires { IfSome last (λ q. q ≤ 255) }
    ensures { result ≡ next_number (last_given last) p }
{
    match last {
        None => p % 2,
        Some(last) if last % 2 == p % 2 => last,
        Some(last) => last + 1,
    }
}

// The new number of each used priority.
pub fn number(used: [u8; PRIORITIES]) -> [u16; PRIORITIES]
    ensures { Numbers 256 used result }
{
    let mut numbers = [0u16; PRIORITIES];
    let mut last = None;
    for (p, &mark) in used.iter().enumerate() {
        if mark == 1 {
            let next = next_number(last, p as u16);
            numbers[p] = next;
            last = Some(next);
        }
    }
    numbers
}

// The new table, entry by entry.
pub fn write(priorities: &[u16], numbers: [u16; PRIORITIES], new_priorities: &mut [u16])
    requires { Small priorities.now × (length new_priorities.old ≡ length priorities.now) }
    ensures { new_priorities.new ≡ map (λ p. get_or numbers p 0) priorities.now }
{
    for (v, &p) in priorities.iter().enumerate() {
        new_priorities[v] = numbers[p as usize];
    }
}
