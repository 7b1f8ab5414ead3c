// The public functions: a text read into lent tables, for every input.
ghost use Rattle.std.specs.Prelude.{length};
ghost use Rattle.rules.specs.Reading as Reading;
ghost use Rattle.rules.specs.Reading.{ReadsText};
ghost use Rattle.parity_game.specs.Said.{said};
ghost use Rattle.arrange.specs.Laws.{rooms_of};
ghost use Rattle.pgsolver_finish.specs.Finishing.{asks_in, written_of};
ghost use Rattle.pgsolver_step.specs.Steps.{Fitting};
ghost use Rattle.pgsolver_portion.specs.Reached.{TakenAs};
ghost use Rattle.pgsolver_end.specs.Told.{Fitted};

use parity_game::{Answer, Refusal};
use pgsolver_acts::state::State;
use pgsolver_end::end::end_text;
use pgsolver_finish::finish::{Asks, refuse};
use pgsolver_portion::begin::begin;
use pgsolver_portion::take::take_portion;
use reading_rooms::check_rooms;

// A start, and the text as one portion.
fn take_whole(
    text: &[u8],
    most_bytes: u64,
    owners: &mut [u8],
    priorities: &mut [u16],
    offsets: &mut [u16],
    targets: &mut [u16],
) -> Result<State, Refusal>
    requires { Fitting owners.old priorities.old offsets.old }
    ensures { TakenAs most_bytes text.now (length text.now) result owners.new
        priorities.new offsets.new targets.new }
{
    let s = begin(owners, priorities, offsets, targets);
    take_portion(text, 0, most_bytes, s, owners, priorities, offsets, targets)
}

// Where the rooms fit: the text, and then the end.
fn read_fitting(
    asks: Asks,
    text: &[u8],
    most_bytes: u64,
    owners: &mut [u8],
    priorities: &mut [u16],
    offsets: &mut [u16],
    targets: &mut [u16],
    work: &mut [u64],
    n: &mut u64,
    m: &mut u64,
) -> Answer
    requires { Fitted (rooms_of owners.old priorities.old offsets.old targets.old work.old) }
    ensures { Reading.Told (asks_in asks) most_bytes text.now
        (rooms_of owners.old priorities.old offsets.old targets.old
        work.old)
        (written_of owners.new priorities.new offsets.new targets.new
        work.new n.new m.new)
        (said result) }
{
    match take_whole(text, most_bytes, owners, priorities, offsets, targets) {
        Ok(next) => end_text(
            asks,
            next,
            text.len() as u64,
            owners,
            priorities,
            offsets,
            targets,
            work,
            n,
            m,
        ),
        Err(refusal) => {
            refuse(owners, priorities, offsets, targets, work, n, m);
            Err(refusal)
        }
    }
}

// 9 and 10 first: nothing is written then.
fn read_by(
    asks: Asks,
    text: &[u8],
    most_bytes: u64,
    owners: &mut [u8],
    priorities: &mut [u16],
    offsets: &mut [u16],
    targets: &mut [u16],
    work: &mut [u64],
    n: &mut u64,
    m: &mut u64,
) -> Answer
    ensures { ReadsText (asks_in asks) most_bytes text.now
        (written_of owners.old priorities.old offsets.old targets.old
        work.old n.old m.old)
        (written_of owners.new priorities.new offsets.new targets.new
        work.new n.new m.new)
        (said result) }
{
    check_rooms(
        owners.len(),
        priorities.len(),
        offsets.len(),
        targets.len(),
        work.len(),
    )?;
    read_fitting(
        asks, text, most_bytes, owners, priorities, offsets, targets, work, n, m,
    )
}

// A game from a text: its tables pass document 01's list.
pub fn read(
    text: &[u8],
    most_bytes: u64,
    owners: &mut [u8],
    priorities: &mut [u16],
    offsets: &mut [u16],
    targets: &mut [u16],
    work: &mut [u64],
    n: &mut u64,
    m: &mut u64,
) -> Answer
    ensures { ReadsText Reading.game most_bytes text.now
        (written_of owners.old priorities.old offsets.old targets.old
        work.old n.old m.old)
        (written_of owners.new priorities.new offsets.new targets.new
        work.new n.new m.new)
        (said result) }
{
    read_by(
        Asks::Game,
        text,
        most_bytes,
        owners,
        priorities,
        offsets,
        targets,
        work,
        n,
        m,
    )
}

// What a text says, also where document 01's list would refuse it.
pub fn read_tables(
    text: &[u8],
    most_bytes: u64,
    owners: &mut [u8],
    priorities: &mut [u16],
    offsets: &mut [u16],
    targets: &mut [u16],
    work: &mut [u64],
    n: &mut u64,
    m: &mut u64,
) -> Answer
    ensures { ReadsText Reading.text most_bytes text.now
        (written_of owners.old priorities.old offsets.old targets.old
        work.old n.old m.old)
        (written_of owners.new priorities.new offsets.new targets.new
        work.new n.new m.new)
        (said result) }
{
    read_by(
        Asks::Text,
        text,
        most_bytes,
        owners,
        priorities,
        offsets,
        targets,
        work,
        n,
        m,
    )
}
