// The certificate checker: two sets and a strategy, checked without trust in any solver. Yes, or the first of 21 to
// 24 that applies, with 25 in the place of 22 where every entry is none.
#![tactic(auto)]

mod cycles;

ghost use Rattle.std.specs.Prelude.{◌≡◌};
ghost use Rattle.parity_game.specs.Said.{said, verdict};
ghost use Rattle.rules.specs.Checker.{Checks};
ghost use Rattle.checker.specs.Checks.{Certifiable, Certifies, KindsReady, kinds};
ghost use Rattle.rules.specs.Record.{fresh_count};
ghost use Rattle.rules.specs.Tables.{tables_of, Accepted};

use parity_game::{Answer, Checked};

// The kinds 21, 22 or 25, and 23, in this order: those that need no work area.
fn check_kinds(
    owners: &[u8],
    offsets: &[u16],
    targets: &[u16],
    even: &[u64],
    odd: &[u64],
    strategy: &[u16],
) -> Checked
    requires { KindsReady owners.now offsets.now targets.now even.now odd.now strategy.now }
    ensures { verdict result ≡ kinds owners.now offsets.now targets.now even.now odd.now strategy.now }
{
    checker_partition::check_partition(owners.len(), even, odd)?;
    checker_entries::check_entries(owners, offsets, targets, even, strategy)?;
    checker_sides::check_sides(owners, offsets, targets, even, strategy)
}

// Those, and 24 behind them.
fn certify(
    owners: &[u8],
    priorities: &[u16],
    offsets: &[u16],
    targets: &[u16],
    kept: &[u64],
    even: &[u64],
    odd: &[u64],
    strategy: &[u16],
    work: &mut [u64],
) -> Checked
    requires { Certifiable (tables_of owners.now priorities.now offsets.now targets.now) even.now odd.now
        strategy.now work.old × (kept.now ≡ fresh_count priorities.now) }
    ensures { Certifies (tables_of owners.now priorities.now offsets.now
        targets.now) even.now odd.now
        strategy.now work.old work.new (verdict result) }
{
    check_kinds(owners, offsets, targets, even, odd, strategy)?;
    cycles::check_cycles(
        owners, priorities, offsets, targets, kept, even, strategy, work,
    )
}

// Checks the two sets and the strategy against the game of accepted tables.
pub fn check(
    owners: &[u8],
    priorities: &[u16],
    offsets: &[u16],
    targets: &[u16],
    kept: &[u64],
    even: &[u64],
    odd: &[u64],
    strategy: &[u16],
    work: &mut [u64],
) -> Answer
    requires { Accepted (tables_of owners.now priorities.now offsets.now targets.now) ×
        (kept.now ≡ fresh_count priorities.now) }
    ensures { Checks (tables_of owners.now priorities.now offsets.now
        targets.now) even.now odd.now
        strategy.now work.old work.new (said result) }
{
    let n = owners.len();
    let m = targets.len();
    lent_checks::checks::check_lent(n, m, even.len(), odd.len(), strategy.len(), work.len())?;
    let checked = certify(
        owners, priorities, offsets, targets, kept, even, odd, strategy, work,
    );
    parts::clear(work, 0, parity_game::work_words(n, m));
    checked?;
    Ok(0)
}
