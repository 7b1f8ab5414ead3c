// The end is announced: what the text says, then the list.
ghost use Rattle.parity_game.specs.Said.{said};
ghost use Rattle.arrange.specs.Laws.{rooms_of};
ghost use Rattle.pgsolver_finish.specs.Finishing.{asks_in, written_of};
ghost use Rattle.pgsolver_end.specs.Told.{Fitted, EndsText};

use crate::tell::tell;
use parity_game::Answer;
use pgsolver_acts::state::State;
use pgsolver_finish::finish::{Asks, finish, refuse};

pub fn end_text(
    asks: Asks,
    state: State,
    place: u64,
    owners: &mut [u8],
    priorities: &mut [u16],
    offsets: &mut [u16],
    targets: &mut [u16],
    work: &mut [u64],
    n: &mut u64,
    m: &mut u64,
) -> Answer
    requires { Fitted (rooms_of owners.old priorities.old offsets.old targets.old work.old) }
    ensures { EndsText (asks_in asks) state place
        (rooms_of owners.old priorities.old offsets.old targets.old
        work.old)
        (written_of owners.new priorities.new offsets.new targets.new
        work.new n.new m.new)
        (said result) }
{
    match tell(state, place, owners.len(), offsets, targets, work) {
        Ok((records, edges)) => finish(
            asks, records, edges, owners, priorities, offsets, targets, work, n, m,
        ),
        Err(refusal) => {
            refuse(owners, priorities, offsets, targets, work, n, m);
            Err(refusal)
        }
    }
}
