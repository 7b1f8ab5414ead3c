// One priority after another.
ghost use Rattle.std.specs.Prelude.{◌≡◌, ◌<◌};
ghost use Rattle.rules.specs.Record.{fresh_count};
ghost use Rattle.loop_search.specs.Finding.{SearchReady, LoopFound, Seekable, Sought};

use loop_heads::spread_heads;
use search_links::Graph;
use search_rows::Rows;

// Above every priority: there is no way to a good cycle.
const NO_PRIORITY: u16 = 256;

// After this a vertex has a word exactly when it reaches a vertex of p in a good part for p, and its way leads to one.
fn find(graph: &Graph, kept: &[u64], work: &mut [u64])
    requires { SearchReady graph.now.priorities.now graph.now.offsets.now
        graph.now.targets.now graph.now.entries.now work.old ×
        (kept.now ≡ fresh_count graph.now.priorities.now) × (graph.now.p < 256) }
    ensures { LoopFound graph.now.priorities.now graph.now.offsets.now
        graph.now.targets.now graph.now.entries.now graph.now.p
        work.old work.new }
{
    let n = graph.priorities.len();
    let rows = graph.rows();
    let labels = rows.labels();
    let row = rows.behind();
    parts::clear(work, row, row + n);
    subgame::mark_used(graph, kept, work, row);
    parts::clear(work, labels, labels + n);
    spread_heads(graph, work, row);
}

// The lowest such priority of the parity for v, or 256 where there is none; v's way is then shown by the words.
pub fn seek(
    priorities: &[u16],
    offsets: &[u16],
    targets: &[u16],
    kept: &[u64],
    entries: &[u16],
    parity: u16,
    work: &mut [u64],
    v: usize,
) -> u16
    requires { Seekable priorities.now offsets.now targets.now entries.now parity work.old v ×
        (kept.now ≡ fresh_count priorities.now) }
    ensures { Sought priorities.now offsets.now targets.now entries.now parity v
        work.old work.new result }
{
    let n = priorities.len();
    let m = targets.len();
    let labels = Rows { n, m }.labels();
    for k in 0..128u16 {
        let p = 2 * k + parity;
        let graph = Graph {
            priorities,
            offsets,
            targets,
            entries,
            p,
        };
        find(&graph, kept, work);
        if work[labels + v] != 0 {
            return p;
        }
    }
    NO_PRIORITY
}
