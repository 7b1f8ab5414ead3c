// The game record's own checks: `check_record` is the one stage that every function that takes a record calls first.
// Where it lets the record pass, the first n, n, n + 1 and m entries are accepted tables, and what is kept is a fresh
// count of them.
#![tactic(auto)]

ghost use Rattle.std.specs.Prelude.{[], ◌≡◌};
ghost use Rattle.rules.specs.Outcome.{◌then◌};
ghost use Rattle.rules.specs.Record.{record_of, room2, room3, record_tables, record_checks, tables_in, CountsFresh};
ghost use Rattle.rules.specs.Tables.{check1, table_checks};
ghost use Rattle.parity_game.specs.Said.{said, verdict};
ghost use Rattle.theory.specs.Edits.{Roomy};

pub use kept_numbers::KEPT;
use parity_game::{Answer, Checked, MOST_EDGES, MOST_VERTICES, Refusal};

// 1 to 3, by the sizes and the room.
#[tactic(auto, unfolding(rules::specs::Tables::check1, rules::specs::Record::room2, rules::specs::Record::room3))]
fn check_sizes(
    n: usize,
    m: usize,
    owners: usize,
    priorities: usize,
    offsets: usize,
    targets: usize,
) -> Checked
    ensures { verdict result ≡ check1 n then room2 n owners priorities offsets then room3 m targets }
{
    if MOST_VERTICES < n {
        return Err(Refusal::TooManyVertices);
    }
    if owners < n || priorities < n || offsets < n + 1 {
        return Err(Refusal::TableLengths);
    }
    if MOST_EDGES < m || targets < m {
        return Err(Refusal::TooManyEdges);
    }
    Ok(())
}

// 1 to 8 of the entries that count.
fn check_fronts(
    n: usize,
    m: usize,
    owners: &[u8],
    priorities: &[u16],
    offsets: &[u16],
    targets: &[u16],
) -> Checked
    requires { Roomy (record_of n m owners.now priorities.now offsets.now targets.now []) }
    ensures { verdict result ≡ table_checks
        (tables_in
        (record_of n m owners.now priorities.now offsets.now
        targets.now [])) }
{
    table_checks::check_tables(
        &owners[..n],
        &priorities[..n],
        &offsets[..n + 1],
        &targets[..m],
    )
}

// 1 to 8, which look at no kept numbers.
#[tactic(auto, unfolding(rules::specs::Record::record_tables))]
pub fn check_room(
    n: usize,
    m: usize,
    owners: &[u8],
    priorities: &[u16],
    offsets: &[u16],
    targets: &[u16],
) -> Checked
    ensures { verdict result ≡ record_tables
        (record_of n m owners.now priorities.now offsets.now targets.now []) }
{
    check_sizes(
        n,
        m,
        owners.len(),
        priorities.len(),
        offsets.len(),
        targets.len(),
    )?;
    check_fronts(n, m, owners, priorities, offsets, targets)
}

// 1 to 8, then 47.
#[tactic(auto, unfolding(rules::specs::Record::record_tables, rules::specs::Record::record_checks))]
pub fn check_record(
    n: usize,
    m: usize,
    owners: &[u8],
    priorities: &[u16],
    offsets: &[u16],
    targets: &[u16],
    kept: &[u64],
) -> Checked
    ensures { verdict result ≡ record_checks
        (record_of n m owners.now priorities.now offsets.now targets.now
        kept.now) }
{
    check_room(n, m, owners, priorities, offsets, targets)?;
    kept_numbers::check_kept(&priorities[..n], kept)
}

// Writes a fresh count of the tables, for every input.
pub fn fresh_count(
    n: usize,
    m: usize,
    owners: &[u8],
    priorities: &[u16],
    offsets: &[u16],
    targets: &[u16],
    kept: &mut [u64],
) -> Answer
    ensures { CountsFresh
        (record_of n m owners.now priorities.now offsets.now targets.now
        kept.old)
        kept.new
        (said result) }
{
    check_room(n, m, owners, priorities, offsets, targets)?;
    if kept.len() != KEPT {
        return Err(Refusal::BadSize);
    }
    kept_numbers::write_fresh(&priorities[..n], kept);
    Ok(0)
}
