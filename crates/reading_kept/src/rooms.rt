// 9 and 10 before all else, by the lengths of what is lent.
ghost use Rattle.std.specs.Prelude.{◌≡◌};
ghost use Rattle.rules.specs.Outcome.{◌then◌};
ghost use Rattle.parity_game.specs.Said.{verdict};
ghost use Rattle.reading_rooms.specs.Said.{size_checks};
ghost use Rattle.reading_kept.specs.Rooms.{kept_size, state_size};

use kept_numbers::KEPT;
use parity_game::{Checked, Refusal};
use reading_rooms::check_rooms;

// 9 for a kept that is not 258 long, then the tables and the work area.
pub fn check_record_rooms(
    kept: usize,
    owners: usize,
    priorities: usize,
    offsets: usize,
    targets: usize,
    work: usize,
) -> Checked
    ensures { verdict result ≡ (kept_size kept then size_checks owners priorities offsets targets work) }
{
    if kept != KEPT {
        return Err(Refusal::BadSize);
    }
    check_rooms(owners, priorities, offsets, targets, work)
}

// At the end 10 is also a state that is too short.
pub fn check_end_rooms(
    kept: usize,
    owners: usize,
    priorities: usize,
    offsets: usize,
    targets: usize,
    work: usize,
    state: usize,
) -> Checked
    ensures { verdict result
        ≡ ((kept_size kept then size_checks owners priorities offsets targets work) then state_size state) }
{
    check_record_rooms(kept, owners, priorities, offsets, targets, work)?;
    if state < 32 {
        return Err(Refusal::ShortWork);
    }
    Ok(())
}
