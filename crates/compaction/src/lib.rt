// Priority compaction: the priorities that are used get the lowest and fewest numbers that keep order, not
// strictly, and parity. The rule itself is in `compaction_numbers`.
#![tactic(auto)]

ghost use Rattle.rules.specs.Compaction.{Compacts};
ghost use Rattle.parity_game.specs.Said.{said};
ghost use Rattle.compaction.specs.Laws.{lent_of};
ghost use Rattle.rules.specs.Tables.{tables_of, Accepted};

use compaction_numbers::{mark, number, write};
use kept_numbers::KEPT;
use parity_game::{Answer, Refusal};

// Writes the new priority of each vertex, and the kept numbers of the new table, for all accepted tables.
pub fn compact(
    owners: &[u8],
    priorities: &[u16],
    offsets: &[u16],
    targets: &[u16],
    new_priorities: &mut [u16],
    new_kept: &mut [u64],
) -> Answer
    requires { Accepted (tables_of owners.now priorities.now offsets.now targets.now) }
    ensures { Compacts
        (tables_of owners.now priorities.now offsets.now targets.now)
        (lent_of new_priorities.old new_kept.old)
        (lent_of new_priorities.new new_kept.new)
        (said result) }
{
    parity_game::check_table(owners.len(), new_priorities.len())?;
    if new_kept.len() != KEPT {
        return Err(Refusal::BadSize);
    }
    let numbers = number(mark(priorities));
    write(priorities, numbers, new_priorities);
    kept_numbers::write_fresh(new_priorities, new_kept);
    Ok(0)
}
