// The tables of a game as lent slices, checked before anything else is done with them: 1 to 8, for any four slices.
// Loops that are never left early, which become vector code, tell whether all is well; only where one of them says no
// do the checks of `checks_in_order` look for the number and the place.
#![tactic(auto)]

mod scan;

ghost use Rattle.std.specs.Prelude.{◌≡◌};
ghost use Rattle.rules.specs.Tables.{table_checks, tables_of};
ghost use Rattle.parity_game.specs.Said.{verdict};

use parity_game::Checked;
use scan::are_well;

// 1 to 8, for any four slices whatever they hold.
#[tactic(auto, using(parity_game::specs::Laws::tables_grouped))]
pub fn check_tables(owners: &[u8], priorities: &[u16], offsets: &[u16], targets: &[u16]) -> Checked
    ensures { verdict result ≡ table_checks
        (tables_of owners.now priorities.now offsets.now targets.now) }
{
    checks_in_order::check_lengths(owners.len(), priorities.len(), offsets.len(), targets.len())?;
    if are_well(owners, priorities, offsets, targets) {
        return Ok(());
    }
    checks_in_order::first_refusal(owners, priorities, offsets, targets)
}
