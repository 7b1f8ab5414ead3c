// Before the first byte.
ghost use Rattle.std.specs.Prelude.{◌≡◌};
ghost use Rattle.grammar.specs.Machine.{at_first};
ghost use Rattle.pgsolver_acts.specs.Shown.{state_of};
ghost use Rattle.pgsolver_step.specs.Steps.{Fitting};
ghost use Rattle.pgsolver_portion.specs.Reached.{PortionBegins};

use pgsolver_acts::state::{Phase, State};
use reading_rooms::clear_tables;

// Nothing is read yet.
fn start() -> State
    ensures { result ≡ state_of at_first }
{
    State {
        phase: Phase::AtStart,
        said: false,
        highest: 0,
        records: 0,
        edges: 0,
        identifier: 0,
        priority: 0,
        owner: 0,
        begins: 0,
        value: 0,
    }
}

// Nothing waits in the tables then.
pub fn begin(
    owners: &mut [u8],
    priorities: &mut [u16],
    offsets: &mut [u16],
    targets: &mut [u16],
) -> State
    requires { Fitting owners.old priorities.old offsets.old }
    ensures { PortionBegins result owners.new priorities.new offsets.new targets.new }
{
    clear_tables(owners, priorities, offsets, targets);
    start()
}
