// A fresh start.
ghost use Rattle.rules.specs.Portions.{StartsText};
ghost use Rattle.parity_game.specs.Said.{said};
ghost use Rattle.pgsolver_serial.specs.Stands.{lent_of, Stands, FitLent, Starts};

use parity_game::Answer;
use pgsolver_portion::begin::begin;
use pgsolver_words::words::keep;
use reading_rooms::check_rooms;

// Where the rooms fit and the state is long enough.
fn start_fitting(
    most_bytes: u64,
    state: &mut [u64],
    owners: &mut [u8],
    priorities: &mut [u16],
    offsets: &mut [u16],
    targets: &mut [u16],
)
    requires { FitLent (lent_of state.old owners.old priorities.old offsets.old targets.old) }
    ensures { Starts most_bytes
        (lent_of state.old owners.old priorities.old offsets.old
        targets.old)
        (lent_of state.new owners.new priorities.new offsets.new
        targets.new) }
{
    let s = begin(owners, priorities, offsets, targets);
    keep(state, most_bytes, 0, s);
}

// 9 and 10 first. The 32 words of the state are asked for in the place of room for targets.
pub fn read_start(
    most_bytes: u64,
    state: &mut [u64],
    owners: &mut [u8],
    priorities: &mut [u16],
    offsets: &mut [u16],
    targets: &mut [u16],
) -> Answer
    ensures { StartsText Stands most_bytes
        (lent_of state.old owners.old priorities.old offsets.old
        targets.old)
        (lent_of state.new owners.new priorities.new offsets.new
        targets.new)
        (said result) }
{
    check_rooms(
        owners.len(),
        priorities.len(),
        offsets.len(),
        32,
        owners.len() + state.len(),
    )?;
    start_fitting(most_bytes, state, owners, priorities, offsets, targets);
    Ok(0)
}
