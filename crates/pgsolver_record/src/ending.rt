// A game record from a text that came in portions: the end is announced.
ghost use Rattle.rules.specs.Portions.{EndsRecord};
ghost use Rattle.parity_game.specs.Said.{said};
ghost use Rattle.pgsolver_serial.specs.Stands.{Stands};
ghost use Rattle.pgsolver_record.specs.Records.{closing_record_of};

use parity_game::Answer;
use reading_kept::{check_end_rooms, write_beside};

// 9 and 10 first: nothing is written then.
pub fn read_end(
    state: &mut [u64],
    owners: &mut [u8],
    priorities: &mut [u16],
    offsets: &mut [u16],
    targets: &mut [u16],
    kept: &mut [u64],
    work: &mut [u64],
    n: &mut u64,
    m: &mut u64,
) -> Answer
    ensures { EndsRecord Stands
        (closing_record_of state.old owners.old priorities.old offsets.old
        targets.old kept.old work.old n.old m.old)
        (closing_record_of state.new owners.new priorities.new offsets.new
        targets.new kept.new work.new n.new m.new)
        (said result) }
{
    check_end_rooms(
        kept.len(),
        owners.len(),
        priorities.len(),
        offsets.len(),
        targets.len(),
        work.len(),
        state.len(),
    )?;
    let r = pgsolver_close::read_end(state, owners, priorities, offsets, targets, work, n, m);
    write_beside(r, *n, priorities, kept);
    r
}
