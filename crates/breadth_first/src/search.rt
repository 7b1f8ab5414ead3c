// The search itself.
ghost use Rattle.search_links.specs.Graph.{graph_of};
ghost use Rattle.breadth_first.specs.Spreading.{QueueStanding, Spread};

use backward_look::look_back;
use search_links::Graph;

// Each vertex that leads to one in the queue gets that one plus 1 as its word, unless it has a word, and goes to the
// end of the queue; those that the search begins at stand there already, with the word n + 1.
pub fn spread(graph: &Graph, work: &mut [u64], begun: usize)
    requires { QueueStanding (graph_of graph.now) work.old 0 begun }
    ensures { Spread (graph_of graph.now) work.old work.new }
{
    let queue = graph.rows().queue();
    let mut head = 0;
    let mut tail = begun;
    while head < tail {
        let w = work[queue + head] as usize;
        tail = look_back(graph, work, w, w, tail);
        head += 1;
    }
}
