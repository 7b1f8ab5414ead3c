// The lowest-numbered successor inside a set.
ghost use Rattle.std.specs.Prelude.{◌≡◌};
ghost use Rattle.area.specs.EdgesOf.{EdgesOf};
ghost use Rattle.successors.specs.Lowest.{lowest_end};

use parity_game::VertexIndex;

// The lowest-numbered end of an edge of the vertex inside the set, n where there is none.
pub fn lowest_inside(
    n: usize,
    offsets: &[u16],
    targets: &[u16],
    vertex: VertexIndex,
    set: &[u64],
) -> u64
    requires { EdgesOf offsets.now targets.now vertex.0 set.now }
    ensures { result ≡ lowest_end n offsets.now targets.now vertex.0 set.now }
{
    let v = vertex.0;
    let mut lowest = n;
    for e in offsets[v] as usize..offsets[v + 1] as usize {
        let w = targets[e] as usize;
        if w < lowest {
            if sets::contains(set, w) {
                lowest = w;
            }
        }
    }
    lowest as u64
}
