// The second pass: one part after another, from the last finished vertex to the first, by a search against the links.
// It writes for each vertex of priority at most p the label of its part.
ghost use Rattle.search_links.specs.Graph.{graph_of};
ghost use Rattle.backward_look.specs.Seeking.{Findable, PartFound, Labelling, Labelled};

use backward_look::{look_back, put};
use search_links::Graph;

// The part of r: whatever reaches r through vertices without a label gets the label of r.
fn find_part(graph: &Graph, work: &mut [u64], r: usize)
    requires { Findable (graph_of graph.now) work.old r }
    ensures { PartFound (graph_of graph.now) work.old r work.new }
{
    let rows = graph.rows();
    let queue = rows.queue();
    put(work, rows.labels(), r, r as u64 + 1, queue, 0);
    let mut head = 0;
    let mut tail = 1;
    while head < tail {
        let w = work[queue + head] as usize;
        tail = look_back(graph, work, w, r, tail);
        head += 1;
    }
}

// Every vertex of the order gets the label of its part.
pub fn second_pass(graph: &Graph, work: &mut [u64], done: usize)
    requires { Labelling (graph_of graph.now) work.old done }
    ensures { Labelled (graph_of graph.now) work.old work.new }
{
    let rows = graph.rows();
    let order = rows.order();
    let labels = rows.labels();
    for i in (0..done).rev() {
        let r = work[order + i] as usize;
        if work[labels + r] == 0 {
            find_part(graph, work, r);
        }
    }
}
