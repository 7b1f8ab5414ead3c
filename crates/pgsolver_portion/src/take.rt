// One portion more. A refusal of one of its bytes leaves every entry of the tables zero.
ghost use Rattle.pgsolver_step.specs.Steps.{Fitting};
ghost use Rattle.pgsolver_portion.specs.Reached.{Takes};

use parity_game::Refusal;
use pgsolver_acts::state::State;
use pgsolver_step::portion::read_portion;
use reading_rooms::clear_tables;

// A portion whose first byte stands at a place of the text.
pub fn take_portion(
    text: &[u8],
    place: u64,
    most_bytes: u64,
    state: State,
    owners: &mut [u8],
    priorities: &mut [u16],
    offsets: &mut [u16],
    targets: &mut [u16],
) -> Result<State, Refusal>
    requires { Fitting owners.old priorities.old offsets.old }
    ensures { Takes most_bytes place state text.now owners.old priorities.old
        offsets.old targets.old result owners.new priorities.new
        offsets.new targets.new }
{
    match read_portion(
        text, place, most_bytes, state, owners, priorities, offsets, targets,
    ) {
        Ok(next) => Ok(next),
        Err(refusal) => {
            clear_tables(owners, priorities, offsets, targets);
            Err(refusal)
        }
    }
}
