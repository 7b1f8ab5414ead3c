// The entries when R closes.
ghost use Rattle.promotion_moves.specs.Filling.{Fillable, Filled, FillAll, FilledAll};

use area::NO_ENTRY;
use parity_game::VertexIndex;
use successors::inside::lowest_inside;
use walk::Members;

// v, of R, takes its lowest-numbered successor in R where it is own and has no entry.
fn fill_entry(
    owners: &[u8],
    offsets: &[u16],
    targets: &[u16],
    alpha: u8,
    s: usize,
    work: &mut [u64],
    held: usize,
    entries: usize,
    v: VertexIndex,
)
    requires { Fillable owners.now offsets.now targets.now s held entries v.0 work.old }
    ensures { Filled owners.now offsets.now targets.now alpha held entries v.0
        work.old work.new }
{
    let at = v.0;
    if owners[at] == alpha {
        let entry = entries + at;
        if work[entry] == NO_ENTRY {
            let w = lowest_inside(owners.len(), offsets, targets, v, &work[held..held + s]);
            work[entry] = w;
        }
    }
}

// Own vertices of R without an entry get one: they are heads, of which R's stand at `heads`.
pub fn assign_missing_strategies(
    owners: &[u8],
    offsets: &[u16],
    targets: &[u16],
    alpha: u8,
    s: usize,
    work: &mut [u64],
    heads: usize,
    held: usize,
    entries: usize,
)
    requires { FillAll owners.now offsets.now targets.now s heads held entries work.old }
    ensures { FilledAll owners.now offsets.now targets.now alpha heads held entries
        work.old work.new }
{
    let mut walk = Members::new(work, heads, s);
    while let Some(v) = walk.next(work, heads, s) {
        fill_entry(owners, offsets, targets, alpha, s, work, held, entries, v);
    }
}
