// The kind 24: a cycle whose highest priority has the other parity, by the parts of both parities.
ghost use Rattle.std.specs.Prelude.{◌≡◌, ◌+◌, ◌*◌, ◌<◌, length};
ghost use Rattle.rules.specs.Outcome.{given_at};
ghost use Rattle.parity_game.specs.Said.{verdict};
ghost use Rattle.checker.specs.Cycles.{losing_at, CyclesScannable, MarksReady, CyclesMarked};
ghost use Rattle.checker.specs.Checks.{CyclesReady, CyclesTold};
ghost use Rattle.rules.specs.Record.{fresh_count};
ghost use Rattle.rules.specs.Tables.{tables_of};

use parity_game::{Checked, Refusal, VertexIndex};
use search_rows::{Rows, next_row};

// Whether v is marked in the row of the other parity: the even priorities from rows on, then the odd ones.
#[tactic(auto, using(crate::specs::Cycles::losing_even, crate::specs::Cycles::losing_odd))]
fn is_losing(even: &[u64], work: &[u64], rows: usize, n: usize, v: usize) -> bool
    requires { (v < 64 * length even.now) × (v < n) × (rows + n + v < length work.now) }
    ensures { result ≡ losing_at even.now work.now rows n v }
{
    if sets::contains(even, v) {
        return work[next_row(rows, n) + v] != 0;
    }
    work[rows + v] != 0
}

// The lowest vertex that is marked so.
fn find_losing(even: &[u64], work: &[u64], rows: usize, n: usize) -> Checked
    requires { CyclesScannable even.now work.now rows n }
    ensures { verdict result ≡ given_at 24 n (losing_at even.now work.now rows n) }
{
    for v in 0..n {
        if is_losing(even, work, rows, n, v) {
            return Err(Refusal::LosingCycle(VertexIndex(v)));
        }
    }
    Ok(())
}

// Marks the vertices on cycles, in two rows of n words behind the words of the search for parts.
fn mark_cycles(
    owners: &[u8],
    priorities: &[u16],
    offsets: &[u16],
    targets: &[u16],
    kept: &[u64],
    strategy: &[u16],
    work: &mut [u64],
)
    requires { MarksReady owners.now priorities.now offsets.now targets.now strategy.now work.old ×
        (kept.now ≡ fresh_count priorities.now) }
    ensures { CyclesMarked owners.now priorities.now offsets.now targets.now
        strategy.now
        work.old work.new }
{
    let n = priorities.len();
    let m = targets.len();
    let rows = Rows { n, m }.behind();
    let odd = next_row(rows, n);
    parts::clear(work, rows, next_row(odd, n));
    predecessors::build(offsets, targets, n, work);
    subgame::mark_parity(priorities, offsets, targets, kept, strategy, 0, work, rows);
    subgame::mark_parity(priorities, offsets, targets, kept, strategy, 1, work, odd);
}

// 24.
pub fn check_cycles(
    owners: &[u8],
    priorities: &[u16],
    offsets: &[u16],
    targets: &[u16],
    kept: &[u64],
    even: &[u64],
    strategy: &[u16],
    work: &mut [u64],
) -> Checked
    requires { CyclesReady (tables_of owners.now priorities.now offsets.now targets.now) even.now
        strategy.now work.old × (kept.now ≡ fresh_count priorities.now) }
    ensures { CyclesTold (tables_of owners.now priorities.now offsets.now
        targets.now) even.now
        strategy.now work.old work.new (verdict result) }
{
    mark_cycles(owners, priorities, offsets, targets, kept, strategy, work);
    let n = priorities.len();
    let m = targets.len();
    find_losing(even, work, Rows { n, m }.behind(), n)
}
