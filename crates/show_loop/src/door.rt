// The function on accepted tables: it checks all else that it takes, works in the first W words of the work area, and
// leaves them 0.
ghost use Rattle.std.specs.Prelude.{◌≡◌};
ghost use Rattle.rules.specs.Loop.{ShowsLoop};
ghost use Rattle.rules.specs.Record.{fresh_count};
ghost use Rattle.rules.specs.Tables.{tables_of, Accepted};
ghost use Rattle.parity_game.specs.Said.{said};
ghost use Rattle.show_loop.specs.Running.{LoopRunnable, LoopRan, lent_of};

use crate::checks::check_lent;
use crate::lists::{Lengths, write_run};
use parity_game::{Answer, Refusal, VertexIndex};
use solitaire_game::sole_owner;

// The work itself, in W words, which are left 0.
fn run(
    owners: &[u8],
    priorities: &[u16],
    offsets: &[u16],
    targets: &[u16],
    kept: &[u64],
    v: usize,
    path: &mut [u16],
    cycle: &mut [u16],
    work: &mut [u64],
) -> Option<Lengths>
    requires { LoopRunnable (tables_of owners.now priorities.now offsets.now targets.now) v path.old
        cycle.old work.old × (kept.now ≡ fresh_count priorities.now) }
    ensures { LoopRan (tables_of owners.now priorities.now offsets.now
        targets.now) v work.old work.new path.old path.new
        cycle.old cycle.new result }
{
    let owner = sole_owner(owners);
    predecessors::build(offsets, targets, owners.len(), work);
    let found = write_run(
        priorities,
        offsets,
        targets,
        kept,
        &[],
        owner as u16,
        work,
        v,
        path,
        cycle,
    );
    sets::clear(work, 0, work.len());
    found
}

pub fn show_loop(
    owners: &[u8],
    priorities: &[u16],
    offsets: &[u16],
    targets: &[u16],
    kept: &[u64],
    vertex: u64,
    path: &mut [u16],
    cycle: &mut [u16],
    work: &mut [u64],
    path_length: &mut u64,
) -> Answer
    requires { Accepted (tables_of owners.now priorities.now offsets.now targets.now) ×
        (kept.now ≡ fresh_count priorities.now) }
    ensures { ShowsLoop
        (tables_of owners.now priorities.now offsets.now targets.now)
        vertex
        (lent_of path.old cycle.old work.old path_length.old)
        (lent_of path.new cycle.new work.new path_length.new)
        (said result) }
{
    *path_length = 0;
    let m = targets.len();
    check_lent(owners, m, vertex, path.len(), cycle.len(), work.len())?;
    let w = parity_game::work_words(owners.len(), m);
    let v = vertex as usize;
    let Some(found) = run(
        owners,
        priorities,
        offsets,
        targets,
        kept,
        v,
        path,
        cycle,
        &mut work[0..w],
    ) else {
        return Err(Refusal::NoLoop(VertexIndex(v)));
    };
    let both = found.path as u64 + found.cycle as u64;
    *path_length = found.path as u64;
    Ok(both)
}
