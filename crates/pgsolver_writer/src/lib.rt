// Writes the tables of a game as PGSolver text, in the one form that reading undoes. The length needed is worked
// out by one pass over the tables, before the first byte is written.
#![tactic(auto)]

mod length;

ghost use Rattle.rules.specs.Tables.{tables_of, Accepted};
ghost use Rattle.rules.specs.Writing.{Writes};
ghost use Rattle.parity_game.specs.Said.{said};

use length::text_length;
use parity_game::{Answer, Refusal};
use pgsolver_put::put::put_text;

// Writes the text of accepted tables. The count is its length.
pub fn write(
    owners: &[u8],
    priorities: &[u16],
    offsets: &[u16],
    targets: &[u16],
    text: &mut [u8],
) -> Answer
    requires { Accepted (tables_of owners.now priorities.now offsets.now targets.now) }
    ensures { Writes
        (tables_of owners.now priorities.now offsets.now targets.now)
        text.old
        text.new
        (said result) }
{
    if owners.len() == 0 {
        return Err(Refusal::NoVertex);
    }
    let needed = text_length(owners, priorities, offsets, targets);
    if text.len() < needed {
        return Err(Refusal::ShortText(needed));
    }
    let written = put_text(owners, priorities, offsets, targets, text);
    Ok(written as u64)
}
