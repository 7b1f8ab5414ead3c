// The way round from a vertex back to it.
ghost use Rattle.search_links.specs.Graph.{graph_of};
ghost use Rattle.breadth_first.specs.SearchBegins.{Roundable, Rounded};

use crate::search::spread;
use backward_look::look_back;
use search_links::Graph;

// The search among priorities of at most p that begins at what leads to u: the way from u then ends at a vertex that
// leads to u.
pub fn spread_round(graph: &Graph, work: &mut [u64], u: usize)
    requires { Roundable (graph_of graph.now) work.old u }
    ensures { Rounded (graph_of graph.now) u work.old work.new }
{
    let n = graph.priorities.len();
    let labels = graph.rows().labels();
    sets::clear(work, labels, n);
    let begun = look_back(graph, work, u, n, 0);
    spread(graph, work, begun);
}
