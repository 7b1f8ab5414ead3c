// What the labels of the two passes tell: which strongly connected parts are good, and so which vertices lie in a good
// one. Linear in vertices and edges.
#![tactic(auto)]

ghost use Rattle.std.specs.Prelude.{◌≡◌, ◌+◌, ◌≤◌, ◌<◌, length};
ghost use Rattle.search_links.specs.Area.{ClearedUpTo};
ghost use Rattle.search_links.specs.Graph.{graph_of};
ghost use Rattle.good_parts.specs.Noting.{Noteable, Noted, note_test};
ghost use Rattle.good_parts.specs.Good.{Loopable, loops_at, Testable, good_at, Collectable, TestedBelow};

use search_links::Graph;
use search_rows::Rows;

// The words from one place up to another are cleared.
pub fn clear(work: &mut [u64], from: usize, to: usize)
    requires { (from ≤ to) × (to ≤ length work.old) }
    ensures { ClearedUpTo from to work.old work.new }
{
    sets::clear(work, from, to - from);
}

// Whether u, whose label's word is l, tells something of its part: that p is among its priorities, or that it has two
// vertices.
fn tells(priorities: &[u16], p: u16, l: u64, u: usize, two: bool) -> bool
    requires { u < length priorities.now }
    ensures { result ≡ note_test priorities.now p l u two }
{
    if l == 0 {
        false
    } else if two {
        l != u as u64 + 1
    } else {
        priorities[u] == p
    }
}

// Marks the labels of which some vertex tells so.
pub fn note(priorities: &[u16], m: usize, p: u16, work: &mut [u64], row: usize, two: bool)
    requires { Noteable priorities.now m p work.old row }
    ensures { Noted priorities.now m p work.old row two (length priorities.now)
        work.new }
{
    let n = priorities.len();
    let labels = Rows { n, m }.labels();
    for u in 0..n {
        let l = work[labels + u];
        if tells(priorities, p, l, u, two) {
            work[row + (l as usize - 1)] = 1;
        }
    }
}

// Whether v leads to itself, apart from its priority.
fn has_loop(graph: &Graph, v: usize) -> bool
    requires { Loopable (graph_of graph.now) v }
    ensures { result ≡ loops_at (graph_of graph.now) v }
{
    if !graph.keeps(v, v) {
        return false;
    }
    for e in graph.offsets[v] as usize..graph.offsets[v + 1] as usize {
        if graph.targets[e] as usize == v {
            return true;
        }
    }
    false
}

// Whether v lies in a good part.
fn is_good(graph: &Graph, work: &[u64], v: usize) -> bool
    requires { Testable (graph_of graph.now) work.now v }
    ensures { result ≡ good_at (graph_of graph.now) work.now v }
{
    if graph.p < graph.priorities[v] {
        return false;
    }
    let rows = graph.rows();
    let label = work[rows.labels() + v] as usize - 1;
    if work[rows.hits() + label] == 0 {
        return false;
    }
    work[rows.pairs() + label] != 0 || has_loop(graph, v)
}

// Marks the vertices that lie in a good part, in a row of n words.
pub fn collect(graph: &Graph, work: &mut [u64], base: usize)
    requires { Collectable (graph_of graph.now) work.old base }
    ensures { TestedBelow (graph_of graph.now)
        work.old base (length graph.now.priorities.now) work.new }
{
    for v in 0..graph.priorities.len() {
        if is_good(graph, work, v) {
            work[base + v] = 1;
        }
    }
}
