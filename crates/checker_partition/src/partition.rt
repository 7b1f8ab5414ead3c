// 21: a bit in both sets or in neither, or in one of them at n or above.
ghost use Rattle.std.specs.Prelude.{◌≡◌, ◌*◌, ◌<◌, length};
ghost use Rattle.rules.specs.Checker.{check21};
ghost use Rattle.parity_game.specs.Said.{verdict};
ghost use Rattle.checker_partition.specs.Partition.{stray_at, Sets};

use parity_game::{Checked, Refusal};

// Whether bit b speaks against the partition: in both sets or neither, or, at n or above, in one.
#[tactic(auto, unfolding(crate::specs::Partition::stray_at))]
fn is_stray(n: usize, even: &[u64], odd: &[u64], b: usize) -> bool
    requires { (b < 64 * length even.now) × (b < 64 * length odd.now) }
    ensures { result ≡ stray_at n even.now odd.now b }
{
    let both = sets::contains(odd, b);
    if sets::contains(even, b) {
        return b >= n || both;
    }
    if b < n {
        return !both;
    }
    both
}

// 21, bit by bit.
pub fn check_partition(n: usize, even: &[u64], odd: &[u64]) -> Checked
    requires { Sets n even.now odd.now }
    ensures { verdict result ≡ check21 n even.now odd.now }
{
    for b in 0..64 * even.len() {
        if is_stray(n, even, odd, b) {
            return Err(Refusal::NotOneWinner(b));
        }
    }
    Ok(())
}
