// Document 01's list where it is asked for, and what a refusal leaves.
ghost use Rattle.std.specs.Prelude.{◌≡◌, ◌+◌, take};
ghost use Rattle.rules.specs.Reading.{list_asked};
ghost use Rattle.rules.specs.Tables.{tables_of};
ghost use Rattle.parity_game.specs.Said.{said, verdict};
ghost use Rattle.arrange.specs.Laws.{rooms_of};
ghost use Rattle.pgsolver_finish.specs.Finishing.{asks_in, Askable, Finishable, Area, Wiped, Finishes, written_of};

use parity_game::{Answer, Checked};
use reading_rooms::clear_rooms;

// Whether document 01's list is asked too, or the text alone is read.
#[derive(Clone, Copy)]
pub enum Asks {
    Text,
    Game,
}

// The list, of the tables at the front of their rooms.
fn ask(
    asks: Asks,
    n: usize,
    m: usize,
    owners: &[u8],
    priorities: &[u16],
    offsets: &[u16],
    targets: &[u16],
) -> Checked
    requires { Askable n m owners.now priorities.now offsets.now targets.now }
    ensures { verdict result ≡ list_asked (asks_in asks)
        (tables_of (take n owners.now) (take n priorities.now)
        (take (n + 1) offsets.now) (take m targets.now)) }
{
    match asks {
        Asks::Text => Ok(()),
        Asks::Game => table_checks::check_tables(
            &owners[0..n],
            &priorities[0..n],
            &offsets[0..n + 1],
            &targets[0..m],
        ),
    }
}

// What a refusal leaves: zero everywhere.
pub fn refuse(
    owners: &mut [u8],
    priorities: &mut [u16],
    offsets: &mut [u16],
    targets: &mut [u16],
    work: &mut [u64],
    n: &mut u64,
    m: &mut u64,
)
    requires { Area (rooms_of owners.old priorities.old offsets.old targets.old work.old) }
    ensures { Wiped
        (rooms_of owners.old priorities.old offsets.old targets.old
        work.old)
        (written_of owners.new priorities.new offsets.new targets.new
        work.new n.new m.new) }
{
    clear_rooms(
        owners,
        priorities,
        offsets,
        targets,
        work,
        owners.len() + targets.len(),
    );
    *n = 0;
    *m = 0;
}

// Records that stand in order: the list decides.
pub fn finish(
    asks: Asks,
    records: usize,
    edges: usize,
    owners: &mut [u8],
    priorities: &mut [u16],
    offsets: &mut [u16],
    targets: &mut [u16],
    work: &mut [u64],
    n: &mut u64,
    m: &mut u64,
) -> Answer
    requires { Finishable records edges
        (rooms_of owners.old priorities.old offsets.old targets.old work.old) }
    ensures { Finishes (asks_in asks) records edges
        (rooms_of owners.old priorities.old offsets.old targets.old
        work.old)
        (written_of owners.new priorities.new offsets.new targets.new
        work.new n.new m.new)
        (said result) }
{
    if let Err(refusal) = ask(asks, records, edges, owners, priorities, offsets, targets) {
        refuse(owners, priorities, offsets, targets, work, n, m);
        return Err(refusal);
    }
    *n = records as u64;
    *m = edges as u64;
    Ok(0)
}
