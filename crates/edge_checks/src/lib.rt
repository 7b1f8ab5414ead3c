// The checks 6 to 8, of the tables that say which edges there are: offsets, targets, and that every vertex has one. The
// first that applies gives its place.
#![tactic(auto)]

ghost use Rattle.std.specs.Prelude.{◌≡◌, ◌+◌, length};
ghost use Rattle.rules.specs.Tables.{check6, check7, check8};
ghost use Rattle.parity_game.specs.Said.{verdict};

use parity_game::{Checked, Refusal, VertexIndex};

// 6: the offsets begin at 0, never fall and end at m.
pub fn check_offsets(offsets: &[u16], n: usize, m: usize) -> Checked
    requires { length offsets.now ≡ n + 1 }
    ensures { verdict result ≡ check6 n m offsets.now }
{
    if offsets[0] != 0 {
        return Err(Refusal::BadOffset(0));
    }
    if let Some(i) = offsets.windows(2).position(|pair| pair[1] < pair[0]) {
        return Err(Refusal::BadOffset(i));
    }
    if offsets[n] as usize != m {
        return Err(Refusal::BadOffset(n));
    }
    Ok(())
}

// 7: every target is a vertex.
pub fn check_targets(targets: &[u16], n: usize) -> Checked
    ensures { verdict result ≡ check7 n (length targets.now) targets.now }
{
    match targets.iter().position(|target| n <= *target as usize) {
        Some(e) => Err(Refusal::BadTarget(e)),
        None => Ok(()),
    }
}

// 8: every vertex has an edge. The first edge of a vertex decides.
pub fn is_total(offsets: &[u16], n: usize) -> Checked
    requires { length offsets.now ≡ n + 1 }
    ensures { verdict result ≡ check8 n offsets.now }
{
    'vertices: for v in 0..n {
        for _e in offsets[v]..offsets[v + 1] {
            continue 'vertices;
        }
        return Err(Refusal::DeadEnd(VertexIndex(v)));
    }
    Ok(())
}
