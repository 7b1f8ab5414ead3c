// The good parts of the owner's parity: first a row of marked words, then their set beside the set of all vertices.
ghost use Rattle.std.specs.Prelude.{◌≡◌};
ghost use Rattle.rules.specs.Game.{player_of};
ghost use Rattle.rules.specs.Record.{fresh_count};
ghost use Rattle.rules.specs.Tables.{tables_of};
ghost use Rattle.solitaire_game.specs.Marking.{GoodMarkable, GoodMarked};
ghost use Rattle.solitaire_game.specs.Gathering.{Gatherable, Gathered, GoodPlaceable, GoodPlaced};

use area::next_set;

// Marks the vertices in good parts in a row of n words, and leaves the predecessor table at the front. Without entries
// every vertex keeps all its edges.
pub fn mark_good(
    owners: &[u8],
    priorities: &[u16],
    offsets: &[u16],
    targets: &[u16],
    kept: &[u64],
    owner: u8,
    work: &mut [u64],
    row: usize,
)
    requires { GoodMarkable (tables_of owners.now priorities.now offsets.now targets.now) owner work.old
        row × (kept.now ≡ fresh_count priorities.now) }
    ensures { GoodMarked
        (tables_of owners.now priorities.now offsets.now targets.now)
        (player_of owner) row work.old work.new }
{
    let n = owners.len();
    parts::clear(work, row, row + n);
    predecessors::build(offsets, targets, n, work);
    subgame::mark_parity(
        priorities,
        offsets,
        targets,
        kept,
        &[],
        owner as u16,
        work,
        row,
    );
}

// The marked vertices of the row go into the set at `set`.
fn gather(work: &mut [u64], n: usize, s: usize, row: usize, set: usize)
    requires { Gatherable n s row set work.old }
    ensures { Gathered n row set n work.old work.new }
{
    for v in 0..n {
        if work[row + v] != 0 {
            sets::insert(&mut work[set..set + s], v);
        }
    }
}

// All vertices stand at `base`, and behind them the marked ones.
pub fn place(work: &mut [u64], n: usize, s: usize, row: usize, base: usize)
    requires { GoodPlaceable n s row base work.old }
    ensures { GoodPlaced n s row base work.old work.new }
{
    sets::clear(work, base, s + s);
    sets::fill(&mut work[base..base + s], n);
    gather(work, n, s, row, next_set(base, s));
}
