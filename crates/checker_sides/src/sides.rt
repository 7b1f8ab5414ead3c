// 23: the edges that decide stay on their side, the strategy edge of a winner's own vertex and every edge of a loser's.
ghost use Rattle.std.specs.Prelude.{◌≡◌, ◌*◌, ◌<◌, length};
ghost use Rattle.rules.specs.Outcome.{given_at};
ghost use Rattle.parity_game.specs.Said.{verdict};
ghost use Rattle.checker_sides.specs.Sides.{side_of, Sided, leaves_set};

use checker_entries::is_own;
use parity_game::{Checked, Refusal, VertexIndex};

// Whether w lies in the set that holds v.
#[tactic(auto, using(crate::specs::Sides::side_even, crate::specs::Sides::side_odd))]
fn stays(even: &[u64], v: usize, w: usize) -> bool
    requires { (v < 64 * length even.now) × (w < 64 * length even.now) }
    ensures { result ≡ side_of even.now v w }
{
    if sets::contains(even, v) {
        return sets::contains(even, w);
    }
    !sets::contains(even, w)
}

// 23: the strategy edge of a winner's own vertex, or any edge of a loser's vertex, ends outside the winner's set.
pub fn check_sides(
    owners: &[u8],
    offsets: &[u16],
    targets: &[u16],
    even: &[u64],
    strategy: &[u16],
) -> Checked
    requires { Sided owners.now offsets.now targets.now even.now strategy.now }
    ensures { verdict result ≡
        given_at 23 (length owners.now)
        (leaves_set owners.now offsets.now targets.now even.now strategy.now) }
{
    'vertices: for v in 0..owners.len() {
        if is_own(owners, even, v) {
            let inside = stays(even, v, strategy[v] as usize);
            if inside {
                continue 'vertices;
            }
            return Err(Refusal::LeavesSet(VertexIndex(v)));
        }
        for e in offsets[v] as usize..offsets[v + 1] as usize {
            if !stays(even, v, targets[e] as usize) {
                return Err(Refusal::LeavesSet(VertexIndex(v)));
            }
        }
    }
    Ok(())
}
