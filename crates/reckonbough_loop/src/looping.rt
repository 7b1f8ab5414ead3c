// A run from a vertex of a solitaire game.
ghost use Rattle.rules.specs.Loop.{ShowsLoop};
ghost use Rattle.rules.specs.Record.{record_of, ByRecord};
ghost use Rattle.show_loop.specs.Running.{lent_of};
ghost use Rattle.telling.specs.Doors.{told};

use telling::tell;

// The path's length is 0 before all else, and so after every refusal.
pub fn reckonbough_show_loop(
    n: u64,
    m: u64,
    owners: &[u8],
    priorities: &[u16],
    offsets: &[u16],
    targets: &[u16],
    kept: &[u64],
    vertex: u64,
    path: &mut [u16],
    cycle: &mut [u16],
    work: &mut [u64],
    path_length: &mut u64,
    place: &mut u64,
    count: &mut u64,
) -> u64
    ensures { ByRecord
        (record_of n m owners.now priorities.now offsets.now targets.now
        kept.now)
        (told result place.new count.new)
        (lent_of path.old cycle.old work.old 0)
        (lent_of path.new cycle.new work.new path_length.new)
        (λ t.
        ShowsLoop t vertex
        (lent_of path.old cycle.old work.old 0)
        (lent_of path.new cycle.new work.new path_length.new)
        (told result place.new count.new)) }
{
    let n = n as usize;
    let m = m as usize;
    *path_length = 0;
    match record::check_record(n, m, owners, priorities, offsets, targets, kept) {
        Ok(()) => {
            let done = show_loop::show_loop(
                &owners[..n],
                &priorities[..n],
                &offsets[..n + 1],
                &targets[..m],
                kept,
                vertex,
                path,
                cycle,
                work,
                path_length,
            );
            tell(done, place, count)
        }
        Err(refused) => tell(Err(refused), place, count),
    }
}
