// A game record from a whole text, for every input.
ghost use Rattle.rules.specs.Reading.{ReadsRecord};
ghost use Rattle.parity_game.specs.Said.{said};
ghost use Rattle.pgsolver_record.specs.Records.{written_record_of};

use parity_game::Answer;
use reading_kept::{check_record_rooms, write_beside};

// 9 and 10 first: nothing is written then.
pub fn read(
    text: &[u8],
    most_bytes: u64,
    owners: &mut [u8],
    priorities: &mut [u16],
    offsets: &mut [u16],
    targets: &mut [u16],
    kept: &mut [u64],
    work: &mut [u64],
    n: &mut u64,
    m: &mut u64,
) -> Answer
    ensures { ReadsRecord most_bytes text.now
        (written_record_of owners.old priorities.old offsets.old targets.old
        kept.old work.old n.old m.old)
        (written_record_of owners.new priorities.new offsets.new targets.new
        kept.new work.new n.new m.new)
        (said result) }
{
    check_record_rooms(
        kept.len(),
        owners.len(),
        priorities.len(),
        offsets.len(),
        targets.len(),
        work.len(),
    )?;
    let r = pgsolver::read(
        text, most_bytes, owners, priorities, offsets, targets, work, n, m,
    );
    write_beside(r, *n, priorities, kept);
    r
}
