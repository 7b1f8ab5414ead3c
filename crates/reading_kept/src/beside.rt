// The kept numbers beside tables that were read. The tables may be any: a state from elsewhere can make them.
ghost use Rattle.std.specs.Prelude.{◌≡◌, length};
ghost use Rattle.parity_game.specs.Said.{said};
ghost use Rattle.reading_kept.specs.Beside.{beside_by};

use kept_numbers::{KEPT, fresh, put};
use parity_game::Answer;

// After an answer a fresh count of the first n priorities, after a refusal zero everywhere. A refusal that is said once
// more goes by the number that was kept, and 0 is an answer's.
fn count_beside(read: Answer, n: u64, priorities: &[u16]) -> [u64; KEPT]
    ensures { result ≡ beside_by (said read).number n priorities.now }
{
    match read {
        Err(refusal) if refusal.number() != 0 => [0u64; KEPT],
        _ => fresh(&priorities[0..priorities.len().min(n as usize)]),
    }
}

pub fn write_beside(read: Answer, n: u64, priorities: &[u16], kept: &mut [u64])
    requires { length kept.old ≡ 258 }
    ensures { kept.new ≡ beside_by (said read).number n priorities.now }
{
    put(&count_beside(read, n, priorities), kept);
}
