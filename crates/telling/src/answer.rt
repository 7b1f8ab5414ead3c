// What every door does with its answer.
ghost use Rattle.std.specs.Prelude.{◌≡◌};
ghost use Rattle.parity_game.specs.Said.{said};
ghost use Rattle.telling.specs.Doors.{told};

use parity_game::Answer;

// Writes the place and the count of an answer and gives its number.
pub fn tell(answer: Answer, place: &mut u64, count: &mut u64) -> u64
    ensures { said answer ≡ told result place.new count.new }
{
    let (number, at, k) = match answer {
        Ok(k) => (0, 0, k),
        Err(refused) => (refused.number(), refused.place(), 0),
    };
    *place = at;
    *count = k;
    number
}
