// The heads: the vertices of exactly p that a row of n words marks.
ghost use Rattle.std.specs.Prelude.{◌≡◌, ◌+◌, ◌<◌, length};
ghost use Rattle.search_links.specs.Graph.{graph_of};
ghost use Rattle.loop_heads.specs.Heads.{head, among_all, Headable, Headed};

use backward_look::put;
use breadth_first::spread;
use parity_game::HIGHEST_PRIORITY;
use search_links::Graph;

// Whether v is a head.
fn is_head(graph: &Graph, work: &[u64], row: usize, v: usize) -> bool
    requires { (v < length graph.now.priorities.now) × (row + v < length work.now) }
    ensures { result ≡ head graph.now.priorities.now graph.now.p row work.now v }
{
    graph.priorities[v] == graph.p && work[row + v] != 0
}

// The search among all vertices that begins at the heads.
pub fn spread_heads(graph: &Graph, work: &mut [u64], row: usize)
    requires { Headable (among_all (graph_of graph.now)) row work.old }
    ensures { Headed (among_all (graph_of graph.now)) graph.now.p row work.old work.new }
{
    let n = graph.priorities.len();
    let rows = graph.rows();
    let queue = rows.queue();
    let labels = rows.labels();
    let mut end = 0;
    for v in 0..n {
        if is_head(graph, work, row, v) {
            put(work, labels, v, n as u64 + 1, queue, end);
            end += 1;
        }
    }
    let all = Graph {
        p: HIGHEST_PRIORITY,
        ..*graph
    };
    spread(&all, work, end);
}
