// The work itself: what goes in, the attractor, and what comes out.
ghost use Rattle.std.specs.Prelude.{List, ◌≡◌, ℕ, length, replicate};
ghost use Rattle.rules.specs.Game.{player_of};
ghost use Rattle.rules.specs.Tables.{Accepted, tables_of};
ghost use Rattle.attractor_run.specs.Work.{SetsPreparable, SetsPrepared, Handing, Handed, AttractorRunnable, AttractorRan};

use area::{Area, next_set};
use attractor::attract;
use attractor_outputs::distances::write_distances;
use attractor_outputs::strategy::write_strategy;

// V and the target go in, one behind the other, and the predecessor table is built.
fn prepare(
    offsets: &[u16],
    targets: &[u16],
    n: usize,
    within: &[u64],
    target: &[u64],
    work: &mut [u64],
    base: usize,
)
    requires { SetsPreparable n offsets.now targets.now within.now target.now work.old base }
    ensures { SetsPrepared n offsets.now targets.now within.now target.now
        work.old work.new base }
{
    let s = within.len();
    let set = next_set(base, s);
    sets::copy_from(&mut work[base..base + s], within);
    sets::copy_from(&mut work[set..set + s], target);
    predecessors::build(offsets, targets, n, work);
}

// The result, the strategy and the distances come out.
fn hand_out(
    owners: &[u8],
    m: usize,
    alpha: u8,
    target: &[u64],
    work: &[u64],
    set: usize,
    res: &mut [u64],
    strategy: &mut [u16],
    distances: &mut [u16],
)
    requires { Handing owners.now m alpha target.now work.now set res.old strategy.old
        distances.old }
    ensures { Handed owners.now m alpha target.now work.now set
        res.new strategy.new distances.new }
{
    let n = owners.len();
    let s = target.len();
    let area = Area { n, m, s };
    let entries = area.entries();
    let far = area.distances();
    sets::copy_from(res, &work[set..set + s]);
    write_strategy(owners, alpha, target, res, work, entries, strategy);
    write_distances(target, res, work, far, distances);
}

// In W words, which are left 0.
pub fn run(
    owners: &[u8],
    offsets: &[u16],
    targets: &[u16],
    alpha: u8,
    within: &[u64],
    target: &[u64],
    res: &mut [u64],
    strategy: &mut [u16],
    distances: &mut [u16],
    work: &mut [u64],
) -> u64
    requires { AttractorRunnable owners.now offsets.now targets.now alpha within.now target.now
        res.old strategy.old distances.old work.old }
    ensures { (work.new ≡ replicate (length work.old) 0) ×
        ((priorities : List ℕ) →
        Accepted (tables_of owners.now priorities offsets.now targets.now) →
        AttractorRan
        (tables_of owners.now priorities offsets.now targets.now)
        (player_of alpha) within.now target.now res.new strategy.new
        distances.new result) }
{
    let n = owners.len();
    let m = targets.len();
    let s = within.len();
    let base = Area { n, m, s }.free();
    let set = next_set(base, s);
    prepare(offsets, targets, n, within, target, work, base);
    let looks = attract(owners, offsets, targets, alpha, work, base, set);
    hand_out(
        owners, m, alpha, target, work, set, res, strategy, distances,
    );
    sets::clear(work, 0, work.len());
    looks
}
