// What 4 to 8 ask, each in one pass that is not left early.
ghost use Rattle.std.specs.Prelude.{true, ◌≡◌, ◌+◌, length};
ghost use Rattle.rules.specs.Tables.{tables_of};
ghost use Rattle.table_checks.specs.Well.{NoneAbove, Rises, Well};

use parity_game::HIGHEST_PRIORITY;

// No byte is above what this gives.
fn highest_byte(bytes: &[u8]) -> u8
    ensures { NoneAbove (length bytes.now) bytes.now result }
{
    bytes.iter().copied().max().unwrap_or(0)
}

// No number is above what this gives.
fn highest(numbers: &[u16]) -> u16
    ensures { NoneAbove (length numbers.now) numbers.now result }
{
    numbers.iter().copied().max().unwrap_or(0)
}

// Whether each offset is below the next, so that none falls and every vertex has an edge.
fn rise(offsets: &[u16], n: usize) -> bool
    requires { length offsets.now ≡ n + 1 }
    ensures { result ≡ true → Rises n offsets.now }
{
    let mut rise = true;
    for v in 0..n {
        rise &= offsets[v] < offsets[v + 1];
    }
    rise
}

// True says that 4 to 8 refuse nothing.
pub fn are_well(owners: &[u8], priorities: &[u16], offsets: &[u16], targets: &[u16]) -> bool
    requires { (length priorities.now ≡ length owners.now) × (length offsets.now ≡ length owners.now + 1) }
    ensures { result ≡ true →
        Well
        (tables_of owners.now priorities.now offsets.now targets.now) }
{
    let n = owners.len();
    highest_byte(owners) <= 1
        && highest(priorities) <= HIGHEST_PRIORITY
        && offsets[0] == 0
        && offsets[n] as usize == targets.len()
        && rise(offsets, n)
        && usize::from(highest(targets)) < n
}
