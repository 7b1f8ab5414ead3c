// All priorities of one parity, one subgame after another.
ghost use Rattle.std.specs.Prelude.{◌≡◌, ◌<◌};
ghost use Rattle.rules.specs.Record.{fresh_count};
ghost use Rattle.search_links.specs.Graph.{graph_of};
ghost use Rattle.parts.specs.Whole.{PartsMarkable, PartsMarked};
ghost use Rattle.subgame.specs.Parity.{Sweepable, Swept};

use search_links::Graph;

// A priority that no vertex has, by the kept numbers, has no part, and no search.
pub fn mark_used(graph: &Graph, kept: &[u64], work: &mut [u64], base: usize)
    requires { PartsMarkable (graph_of graph.now) work.old base ×
        (kept.now ≡ fresh_count graph.now.priorities.now) × (graph.now.p < 256) }
    ensures { PartsMarked (graph_of graph.now) base work.old work.new }
{
    if kept[graph.p as usize] != 0 {
        crate::mark_parts(graph, work, base);
    }
}

// Marks in one row of n words the vertices of good parts for some priority below 256 of that parity.
pub fn mark_parity(
    priorities: &[u16],
    offsets: &[u16],
    targets: &[u16],
    kept: &[u64],
    entries: &[u16],
    parity: u16,
    work: &mut [u64],
    base: usize,
)
    requires { Sweepable priorities.now offsets.now targets.now entries.now parity work.old base ×
        (kept.now ≡ fresh_count priorities.now) }
    ensures { Swept priorities.now offsets.now targets.now
        entries.now parity base 128
        work.old work.new }
{
    for k in 0..128u16 {
        let graph = Graph {
            priorities,
            offsets,
            targets,
            entries,
            p: 2 * k + parity,
        };
        mark_used(&graph, kept, work, base);
    }
}
