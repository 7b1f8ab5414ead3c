// One portion more.
ghost use Rattle.rules.specs.Portions.{ReadsPortion, Portioned};
ghost use Rattle.parity_game.specs.Said.{said};
ghost use Rattle.pgsolver_serial.specs.Stands.{lent_of, Stands, FitLent, GoesOn};

use parity_game::Answer;
use pgsolver_portion::take::take_portion;
use pgsolver_words::words::{found, give, keep, outcome_found, place_found};
use reading_rooms::check_rooms;

// Where a reading is found in the words: it goes on, or its outcome is there from now on.
fn go_on(
    portion: &[u8],
    state: &mut [u64],
    owners: &mut [u8],
    priorities: &mut [u16],
    offsets: &mut [u16],
    targets: &mut [u16],
) -> Answer
    requires { FitLent (lent_of state.old owners.old priorities.old offsets.old targets.old) }
    ensures { GoesOn portion.now
        (lent_of state.old owners.old priorities.old offsets.old
        targets.old)
        (lent_of state.new owners.new priorities.new offsets.new
        targets.new)
        (said result) }
{
    let most = state[1];
    let place = place_found(state);
    let s = found(state);
    match take_portion(
        portion, place, most, s, owners, priorities, offsets, targets,
    ) {
        Ok(next) => {
            keep(state, most, place + portion.len() as u64, next);
            Ok(0)
        }
        Err(refusal) => {
            give(state, refusal.number(), refusal.place(), 0, 0);
            Err(refusal)
        }
    }
}

// An outcome that is there is given again.
fn portion_fitting(
    portion: &[u8],
    state: &mut [u64],
    owners: &mut [u8],
    priorities: &mut [u16],
    offsets: &mut [u16],
    targets: &mut [u16],
) -> Answer
    requires { FitLent (lent_of state.old owners.old priorities.old offsets.old targets.old) }
    ensures { Portioned Stands portion.now
        (lent_of state.old owners.old priorities.old offsets.old
        targets.old)
        (lent_of state.new owners.new priorities.new offsets.new
        targets.new)
        (said result) }
{
    if state[0] == 1 {
        return outcome_found(state);
    }
    go_on(portion, state, owners, priorities, offsets, targets)
}

// 9 and 10 first. The 32 words of the state are asked for in the place of room for targets.
pub fn read_portion(
    portion: &[u8],
    state: &mut [u64],
    owners: &mut [u8],
    priorities: &mut [u16],
    offsets: &mut [u16],
    targets: &mut [u16],
) -> Answer
    ensures { ReadsPortion Stands portion.now
        (lent_of state.old owners.old priorities.old offsets.old
        targets.old)
        (lent_of state.new owners.new priorities.new offsets.new
        targets.new)
        (said result) }
{
    check_rooms(
        owners.len(),
        priorities.len(),
        offsets.len(),
        32,
        owners.len() + state.len(),
    )?;
    portion_fitting(portion, state, owners, priorities, offsets, targets)
}
