// All eight checks in document 01's order. It writes nothing.
ghost use Rattle.std.specs.Prelude.{◌≡◌};
ghost use Rattle.rules.specs.Tables.{table_checks, tables_of};
ghost use Rattle.parity_game.specs.Said.{verdict};

use edge_checks::{check_offsets, check_targets, is_total};
use parity_game::Checked;
use size_checks::check_lengths;
use vertex_checks::{check_owners, check_priorities};

// 1 to 8 one after another: the first that applies.
#[tactic(auto, using(parity_game::specs::Laws::tables_grouped))]
pub fn first_refusal(owners: &[u8], priorities: &[u16], offsets: &[u16], targets: &[u16]) -> Checked
    ensures { verdict result ≡ table_checks
        (tables_of owners.now priorities.now offsets.now targets.now) }
{
    let n = owners.len();
    let m = targets.len();
    check_lengths(n, priorities.len(), offsets.len(), m)?;
    check_owners(owners)?;
    check_priorities(priorities)?;
    check_offsets(offsets, n, m)?;
    check_targets(targets, n)?;
    is_total(offsets, n)
}
