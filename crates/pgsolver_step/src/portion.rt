// A portion of a text, byte by byte.
ghost use Rattle.std.specs.Prelude.{◌≡◌, ◌<◌, ◌^◌, min};
ghost use Rattle.pgsolver_step.specs.Steps.{Fitting};
ghost use Rattle.pgsolver_step.specs.Portions.{Portions};

use crate::step::read_byte;
use parity_game::{MOST_EDGES, MOST_VERTICES, Refusal};
use pgsolver_acts::state::State;
use pgsolver_moves::moves::Stop;

// The limit that a room sets, where it is below the most.
fn limit(most: usize, room: usize) -> u16
    requires { most < 2 ^ 16 }
    ensures { result ≡ min most room }
{
    most.min(room) as u16
}

// Reads a portion whose first byte stands at a place of the text. The byte limit goes before what the byte is.
pub fn read_portion(
    text: &[u8],
    place: u64,
    most_bytes: u64,
    state: State,
    owners: &mut [u8],
    priorities: &mut [u16],
    offsets: &mut [u16],
    targets: &mut [u16],
) -> Result<State, Refusal>
    requires { Fitting owners.old priorities.old offsets.old }
    ensures { Portions most_bytes place state text.now owners.old priorities.old
        offsets.old targets.old result owners.new priorities.new
        offsets.new targets.new }
{
    let vertices = limit(MOST_VERTICES, owners.len());
    let edges = limit(MOST_EDGES, targets.len());
    let mut s = state;
    let mut at = place;
    for &b in text {
        if most_bytes <= at {
            return Err(Refusal::BeyondLimit(at));
        }
        s = match read_byte(s, b, vertices, edges, owners, priorities, offsets, targets) {
            Ok(next) => next,
            Err(Stop::Off) => return Err(Refusal::BadText(at)),
            Err(Stop::Over) => return Err(Refusal::BeyondLimit(at)),
        };
        at += 1;
    }
    Ok(s)
}
