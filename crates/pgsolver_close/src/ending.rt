// The end is announced.
ghost use Rattle.std.specs.Prelude.{◌+◌, ◌≤◌, length};
ghost use Rattle.rules.specs.Portions.{EndsReading, ClosedBy};
ghost use Rattle.parity_game.specs.Said.{said};
ghost use Rattle.pgsolver_serial.specs.Stands.{Stands};
ghost use Rattle.pgsolver_close.specs.Ending.{closing_of, FitClosing, EndsOn, Again};

use parity_game::{Answer, Refusal};
use pgsolver_end::end::end_text;
use pgsolver_finish::finish::Asks;
use pgsolver_words::words::{found, give, outcome_found, place_found};
use reading_rooms::{check_rooms, clear_work};

// Where a reading is found in the words: what the text gets, and the outcome is there from now on.
fn end_on(
    state: &mut [u64],
    owners: &mut [u8],
    priorities: &mut [u16],
    offsets: &mut [u16],
    targets: &mut [u16],
    work: &mut [u64],
    n: &mut u64,
    m: &mut u64,
) -> Answer
    requires { FitClosing state.old owners.old priorities.old offsets.old targets.old work.old }
    ensures { EndsOn
        (closing_of state.old owners.old priorities.old offsets.old
        targets.old work.old n.old m.old)
        (closing_of state.new owners.new priorities.new offsets.new
        targets.new work.new n.new m.new)
        (said result) }
{
    let place = place_found(state);
    let s = found(state);
    match end_text(
        Asks::Game,
        s,
        place,
        owners,
        priorities,
        offsets,
        targets,
        work,
        n,
        m,
    ) {
        Ok(count) => {
            give(state, 0, 0, *n, *m);
            Ok(count)
        }
        Err(refusal) => {
            give(state, refusal.number(), refusal.place(), *n, *m);
            Err(refusal)
        }
    }
}

// An outcome that is there is given again, with its sizes.
fn end_again(state: &[u64], used: usize, work: &mut [u64], n: &mut u64, m: &mut u64) -> Answer
    requires { (32 ≤ length state.now) × (used ≤ length work.old) }
    ensures { Again state.now used work.old work.new n.new m.new
        (said result) }
{
    clear_work(work, used);
    *n = state[3];
    *m = state[4];
    outcome_found(state)
}

fn end_fitting(
    state: &mut [u64],
    owners: &mut [u8],
    priorities: &mut [u16],
    offsets: &mut [u16],
    targets: &mut [u16],
    work: &mut [u64],
    n: &mut u64,
    m: &mut u64,
) -> Answer
    requires { FitClosing state.old owners.old priorities.old offsets.old targets.old work.old }
    ensures { ClosedBy Stands
        (closing_of state.old owners.old priorities.old offsets.old
        targets.old work.old n.old m.old)
        (closing_of state.new owners.new priorities.new offsets.new
        targets.new work.new n.new m.new)
        (said result) }
{
    if state[0] == 1 {
        return end_again(state, owners.len() + targets.len(), work, n, m);
    }
    end_on(state, owners, priorities, offsets, targets, work, n, m)
}

// 9 and 10 first.
pub fn read_end(
    state: &mut [u64],
    owners: &mut [u8],
    priorities: &mut [u16],
    offsets: &mut [u16],
    targets: &mut [u16],
    work: &mut [u64],
    n: &mut u64,
    m: &mut u64,
) -> Answer
    ensures { EndsReading Stands
        (closing_of state.old owners.old priorities.old offsets.old
        targets.old work.old n.old m.old)
        (closing_of state.new owners.new priorities.new offsets.new
        targets.new work.new n.new m.new)
        (said result) }
{
    check_rooms(
        owners.len(),
        priorities.len(),
        offsets.len(),
        targets.len(),
        work.len(),
    )?;
    if state.len() < 32 {
        return Err(Refusal::ShortWork);
    }
    end_fitting(state, owners, priorities, offsets, targets, work, n, m)
}
