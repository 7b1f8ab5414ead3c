// The subgame view, after the Rust's Subgame: a game's target table with the highest priority that is let in. It is
// thin: it carries the two through the search for parts, which works on a Graph. Solitaire and the checker go by it.
#![tactic(auto)]

mod parity;

ghost use Rattle.std.specs.Prelude.{◌≡◌, ◌<◌};
ghost use Rattle.search_links.specs.Graph.{graph, graph_of};
ghost use Rattle.parts.specs.Whole.{PartsMarkable, PartsMarked};

pub use parity::{mark_parity, mark_used};
use parity_game::Priority;
use search_links::Graph;

// The game restricted to the vertices of priority at most top.
#[derive(Clone, Copy)]
pub struct Subgame<'a> {
    pub targets: &'a [u16],
    pub top: Priority,
}

impl<'a> Subgame<'a> {
    pub fn new(targets: &'a [u16], top: Priority) -> Subgame<'a>
        ensures { (result.targets ≡ targets.entry) × (result.top ≡ top) }
    {
        Subgame { targets, top }
    }

    // Marks the vertices of the subgame's good parts in a row of n words from base on.
    pub fn mark_parts(
        self,
        priorities: &[u16],
        offsets: &[u16],
        entries: &[u16],
        work: &mut [u64],
        base: usize,
    )
        requires { PartsMarkable (graph priorities.now offsets.now self.targets.now entries.now
            self.top.0) work.old base × (self.top.0 < 256) }
        ensures { PartsMarked (graph priorities.now offsets.now self.entry.targets.now
            entries.now self.entry.top.0)
            base work.old work.new }
    {
        let graph = Graph {
            priorities,
            offsets,
            targets: self.targets,
            entries,
            p: self.top.0 as u16,
        };
        parts::mark_within(&graph, work, base)
    }
}

// The same for a graph, by a view that is made of it.
pub fn mark_parts(graph: &Graph, work: &mut [u64], base: usize)
    requires { PartsMarkable (graph_of graph.now) work.old base × (graph.now.p < 256) }
    ensures { PartsMarked (graph_of graph.now) base work.old work.new }
{
    let view = Subgame::new(graph.targets, Priority(graph.p as usize));
    view.mark_parts(graph.priorities, graph.offsets, graph.entries, work, base)
}
