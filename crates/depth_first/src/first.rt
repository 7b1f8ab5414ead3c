// The first pass: a depth-first search along the links, with the stack in the work area. It writes the vertices in
// the order in which they finish.
ghost use Rattle.std.specs.Prelude.{◌≡◌, ◌+◌, ◌<◌};
ghost use Rattle.search_rows.specs.Rows.{marks};
ghost use Rattle.search_links.specs.Graph.{graph_of, size, edge_count};
ghost use Rattle.depth_first.specs.Walking.{Scannable, Scanned, Pushable, pushed, Advances, Advanced, Startable, Searches, Passes, WalkFinished};

use search_links::Graph;

// How many vertices are on the stack, and how many have finished.
#[derive(Clone, Copy)]
pub struct Progress {
    pub top: usize,
    pub done: usize,
}

// The next edge of t, from an edge on, that leads to a vertex not yet visited, or where t's edges end.
fn next_edge(graph: &Graph, work: &[u64], t: usize, from: usize) -> usize
    requires { Scannable (graph_of graph.now) work.now t from }
    ensures { Scanned (graph_of graph.now) work.now t from result }
{
    let marks = graph.rows().marks();
    let end = graph.offsets[t + 1] as usize;
    for e in from..end {
        let w = graph.targets[e] as usize;
        if graph.opens(work, marks, w, t, w) {
            return e;
        }
    }
    end
}

// y is visited, with its cursor at its first edge, and goes onto the stack.
fn push(graph: &Graph, work: &mut [u64], y: usize, top: usize)
    requires { Pushable (size (graph_of graph.now))
        (marks (size (graph_of graph.now)) (edge_count (graph_of graph.now)))
        graph.now.offsets.now work.old y top }
    ensures { work.new ≡ pushed (size (graph_of graph.now))
        (marks (size (graph_of graph.now)) (edge_count (graph_of graph.now)))
        graph.now.offsets.now y top work.old }
{
    let rows = graph.rows();
    work[rows.marks() + y] = graph.offsets[y] as u64 + 1;
    work[rows.queue() + top] = y as u64;
}

// One move, with t on top of the stack: the next unvisited vertex that it leads to goes onto the stack, or it is
// finished.
fn advance(graph: &Graph, work: &mut [u64], t: usize, at: Progress) -> Progress
    requires { Advances (graph_of graph.now) work.old t at.top at.done }
    ensures { Advanced (graph_of graph.now) work.old work.new at.top at.done result.top result.done }
{
    let rows = graph.rows();
    let marks = rows.marks();
    let from = work[marks + t] as usize - 1;
    let e = next_edge(graph, work, t, from);
    work[marks + t] = e as u64 + 1;
    if e < graph.offsets[t + 1] as usize {
        let y = graph.targets[e] as usize;
        push(graph, work, y, at.top);
        return Progress {
            top: at.top + 1,
            ..at
        };
    }
    work[rows.order() + at.done] = t as u64;
    Progress {
        top: at.top - 1,
        done: at.done + 1,
    }
}

// The search from one root, until the stack is empty. Gives the number of vertices finished.
fn search_from(graph: &Graph, work: &mut [u64], r: usize, done: usize) -> usize
    requires { Startable (graph_of graph.now) work.old r done }
    ensures { Searches (graph_of graph.now) work.old work.new r done result }
{
    let stack = graph.rows().queue();
    push(graph, work, r, 0);
    let mut at = Progress { top: 1, done };
    while at.top != 0 {
        let t = work[stack + (at.top - 1)] as usize;
        at = advance(graph, work, t, at);
    }
    at.done
}

// The order in which the vertices of priority at most p finish, and how many there are.
pub fn first_pass(graph: &Graph, work: &mut [u64]) -> usize
    requires { Passes (graph_of graph.now) work.old }
    ensures { WalkFinished (graph_of graph.now) work.old work.new result }
{
    let marks = graph.rows().marks();
    let mut done = 0;
    for r in 0..graph.priorities.len() {
        if graph.is_fresh(work, marks, r) {
            done = search_from(graph, work, r, done);
        }
    }
    done
}
