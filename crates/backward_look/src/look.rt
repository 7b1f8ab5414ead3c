// One look against the links, and where a vertex that it finds is put.
ghost use Rattle.std.specs.Prelude.{◌≡◌, ◌+◌, get_or};
ghost use Rattle.search_links.specs.Graph.{graph_of};
ghost use Rattle.backward_look.specs.Seeking.{Putable, putting, Lookable, Looked};

use search_links::Graph;

// x gets a word in a row of words, and stands at a place of the queue.
pub fn put(work: &mut [u64], row: usize, x: usize, word: u64, queue: usize, at: usize)
    requires { Putable row x queue at work.old }
    ensures { work.new ≡ putting row x word queue at work.old }
{
    work[row + x] = word;
    work[queue + at] = x as u64;
}

// Each vertex without a label that leads to w gets the label of r, and goes to the end of the queue. Gives the
// queue's new end.
pub fn look_back(graph: &Graph, work: &mut [u64], w: usize, r: usize, tail: usize) -> usize
    requires { Lookable (graph_of graph.now) work.old w r tail }
    ensures { Looked (graph_of graph.now)
        work.old w r tail (get_or work.old (w + 1) 0) work.new result }
{
    let rows = graph.rows();
    let queue = rows.queue();
    let labels = rows.labels();
    let sources = predecessors::sources_at(rows.n);
    let mut end = tail;
    for e in work[w] as usize..work[w + 1] as usize {
        let v = work[sources + e] as usize;
        if graph.opens(work, labels, v, v, w) {
            put(work, labels, v, r as u64 + 1, queue, end);
            end += 1;
        }
    }
    end
}
