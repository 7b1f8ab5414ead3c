// Whether R is open, by its heads: the first edge that decides leaves the loop.
ghost use Rattle.std.specs.Prelude.{◌≡◌};
ghost use Rattle.promotion_open.specs.Opening.{is_open_in};
ghost use Rattle.promotion_escape.specs.Escapes.{Openable};

use parity_game::VertexIndex;
use walk::Members;

// An opponent's head of R, of those at `heads`, has an edge into the last level, at `below`, or an own one has none
// into R, at `held`. No other vertex of R opens it.
pub fn is_open(
    owners: &[u8],
    offsets: &[u16],
    targets: &[u16],
    alpha: u8,
    s: usize,
    work: &[u64],
    heads: usize,
    held: usize,
    below: usize,
) -> bool
    requires { Openable owners.now offsets.now targets.now s heads held below work.now }
    ensures { result ≡ is_open_in owners.now offsets.now targets.now alpha heads held below
        work.now }
{
    let mut walk = Members::new(work, heads, s);
    'vertices: while let Some(VertexIndex(v)) = walk.next(work, heads, s) {
        let own = owners[v] == alpha;
        let place = if own { held } else { below };
        for e in offsets[v] as usize..offsets[v + 1] as usize {
            let w = targets[e] as usize;
            if !sets::contains(&work[place..place + s], w) {
                continue;
            }
            if own {
                continue 'vertices;
            }
            return true;
        }
        if own {
            return true;
        }
    }
    false
}
