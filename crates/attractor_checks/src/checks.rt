// 9, 10 and 12, each for its number and its place. None writes anything.
ghost use Rattle.std.specs.Prelude.{◌≡◌, ◌≤◌, length};
ghost use Rattle.rules.specs.Attractor.{check12};
ghost use Rattle.rules.specs.Tables.{words};
ghost use Rattle.parity_game.specs.Said.{verdict};
ghost use Rattle.attractor_checks.specs.Door.{stray, BothBits, size_checks};

use parity_game::{Checked, Refusal};

// A bit at n or above in either set, or a target bit not in V.
fn is_stray(n: usize, within: &[u64], target: &[u64], b: usize) -> bool
    requires { BothBits within.now target.now b }
    ensures { result ≡ stray n within.now target.now b }
{
    let inside = sets::contains(within, b);
    let asked = sets::contains(target, b);
    if b < n {
        asked && !inside
    } else {
        inside || asked
    }
}

// 12: the lowest such bit.
pub fn check_bits(n: usize, within: &[u64], target: &[u64]) -> Checked
    requires { (length within.now ≡ words n) × (length target.now ≡ words n) × (n ≤ 4096) }
    ensures { verdict result ≡ check12 n within.now target.now }
{
    for b in 0..64 * within.len() {
        if is_stray(n, within, target, b) {
            return Err(Refusal::StrayBit(b));
        }
    }
    Ok(())
}

// 9 and 10, by lengths.
#[tactic(auto, using(crate::specs::DoorLaws::sizes_in_order))]
pub fn check_sizes(
    n: usize,
    m: usize,
    within: usize,
    target: usize,
    res: usize,
    strategy: usize,
    distances: usize,
    work: usize,
) -> Checked
    requires { (n ≤ 4096) × (m ≤ 16384) }
    ensures { verdict result ≡ size_checks n m within target res strategy distances work }
{
    parity_game::check_set(n, within)?;
    parity_game::check_set(n, target)?;
    parity_game::check_set(n, res)?;
    parity_game::check_table(n, strategy)?;
    parity_game::check_table(n, distances)?;
    parity_game::check_work(n, m, work)
}
