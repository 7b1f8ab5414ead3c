// The two lists written, once the way is known.
ghost use Rattle.std.specs.Prelude.{◌≡◌, length};
ghost use Rattle.rules.specs.Record.{fresh_count};
ghost use Rattle.show_loop.specs.Writing.{LoopWritable, Wrote, Goable, Went};

use breadth_first::{follow, spread_round};
use loop_search::seek;
use parity_game::HIGHEST_PRIORITY;
use search_links::Graph;

// How many vertices the path has, and the cycle.
#[derive(Clone, Copy)]
pub struct Lengths {
    pub path: usize,
    pub cycle: usize,
}

// The path along the way that the words show from v, then the way round from its last vertex among priorities of at
// most p.
fn write_lists(
    graph: &Graph,
    work: &mut [u64],
    v: usize,
    path: &mut [u16],
    cycle: &mut [u16],
) -> Lengths
    requires { LoopWritable graph.now.priorities.now graph.now.offsets.now
        graph.now.targets.now graph.now.entries.now graph.now.p
        work.old v path.old cycle.old }
    ensures { (length work.new ≡ length work.old) ×
        Wrote graph.now.priorities.now graph.now.offsets.now
        graph.now.targets.now graph.now.entries.now graph.now.p v
        path.old path.new cycle.old cycle.new result.path result.cycle }
{
    let n = graph.priorities.len();
    let labels = graph.rows().labels();
    let on = follow(n, labels, work, v, path);
    let u = path[on - 1] as usize;
    spread_round(graph, work, u);
    let round = follow(n, labels, work, u, cycle);
    Lengths {
        path: on,
        cycle: round,
    }
}

// The run from v, for the lowest priority of the parity that has one, or nothing where none has.
pub fn write_run(
    priorities: &[u16],
    offsets: &[u16],
    targets: &[u16],
    kept: &[u64],
    entries: &[u16],
    parity: u16,
    work: &mut [u64],
    v: usize,
    path: &mut [u16],
    cycle: &mut [u16],
) -> Option<Lengths>
    requires { Goable priorities.now offsets.now targets.now entries.now parity work.old v path.old
        cycle.old × (kept.now ≡ fresh_count priorities.now) }
    ensures { Went priorities.now offsets.now targets.now entries.now parity v
        work.old work.new path.old path.new
        cycle.old cycle.new result }
{
    let p = seek(priorities, offsets, targets, kept, entries, parity, work, v);
    if HIGHEST_PRIORITY < p {
        return None;
    }
    let graph = Graph {
        priorities,
        offsets,
        targets,
        entries,
        p,
    };
    Some(write_lists(&graph, work, v, path, cycle))
}
