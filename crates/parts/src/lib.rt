// Strongly connected parts in two passes, over one lent work area: the vertices that lie on a cycle of chosen edges
// among vertices of a priority at most a bound that meets the bound exactly. One routine for solitaire and for the
// checker's kind 24, linear in vertices and edges. It takes the tables as a Graph; the view in `subgame` calls it.
#![tactic(auto)]

ghost use Rattle.search_links.specs.Graph.{graph_of};
ghost use Rattle.parts.specs.Whole.{PartsMarkable, PartsMarked};

pub use good_parts::clear;
use search_links::Graph;

// Marks those vertices in a row of n words from base on. The predecessor table stands at the front of the work area,
// and six words for each vertex behind it are used.
pub fn mark_within(graph: &Graph, work: &mut [u64], base: usize)
    requires { PartsMarkable (graph_of graph.now) work.old base }
    ensures { PartsMarked (graph_of graph.now) base work.old work.new }
{
    let rows = graph.rows();
    good_parts::clear(work, rows.marks(), rows.behind());
    let done = depth_first::first_pass(graph, work);
    part_labels::second_pass(graph, work, done);
    good_parts::note(
        graph.priorities,
        graph.targets.len(),
        graph.p,
        work,
        rows.hits(),
        false,
    );
    good_parts::note(
        graph.priorities,
        graph.targets.len(),
        graph.p,
        work,
        rows.pairs(),
        true,
    );
    good_parts::collect(graph, work, base);
}
