// What the bytes so far say once they are all: their records in order in the tables, or 30 at their end, or 31.
ghost use Rattle.std.specs.Prelude.{◌≡◌, min};
ghost use Rattle.pgsolver_end.specs.Ending.{may_end_on};
ghost use Rattle.pgsolver_end.specs.Telling.{Tellable, Tells};

use arrange::arrange;
use parity_game::Refusal;
use pgsolver_acts::state::{Phase, State};
use reading_rooms::check_identifiers;

// Whether a text may end here: between records, once there is one.
fn may_end(s: State) -> bool
    ensures { result ≡ may_end_on s.phase s.records }
{
    matches!(s.phase, Phase::BetweenRecords) && 0 < s.records
}

// A count, kept within its room.
fn least(count: u16, room: usize) -> usize
    ensures { result ≡ min count room }
{
    room.min(count as usize)
}

// How many records and targets; `room` is how many vertices there is room for. A refusal leaves the tables as they are.
pub fn tell(
    s: State,
    place: u64,
    room: usize,
    offsets: &mut [u16],
    targets: &mut [u16],
    work: &mut [u64],
) -> Result<(usize, usize), Refusal>
    requires { Tellable room offsets.old targets.old work.old }
    ensures { Tells s place room offsets.old targets.old work.old result offsets.new
        targets.new work.new }
{
    if !may_end(s) {
        return Err(Refusal::BadText(place));
    }
    let n = least(s.records, room);
    let m = least(s.edges, targets.len());
    check_identifiers(n, s.said, s.highest, offsets)?;
    arrange(n, m, room, offsets, targets, work);
    Ok((n, m))
}
