// One byte, with what it makes whole written into the tables: a target at its place in the text, a record at its
// identifier.
ghost use Rattle.std.specs.Prelude.{◌≡◌, min, set};
ghost use Rattle.pgsolver_step.specs.Steps.{Fitting, LimitRoom, Closes, Steps};
ghost use Rattle.pgsolver_step.specs.Waited.{word_next};

use pgsolver_acts::state::State;
use pgsolver_moves::moves::{Move, Stop, advance};
use reading_rooms::SEEN;

// A target, where there is room for it.
fn aim(targets: &mut [u16], at: u16, value: u16)
    ensures { targets.new ≡ set targets.old at value }
{
    let at = at as usize;
    if at < targets.len() {
        targets[at] = value;
    }
}

// An owner above 255 is kept as 255.
fn capped(owner: u16) -> u8
    ensures { result ≡ min 255 owner }
{
    owner.min(255) as u8
}

// What an identifier's word becomes when it is seen: how often, up to twice, stands above where its targets begin.
fn word_next(old: u16, begins: u16) -> u16
    ensures { result ≡ word_next old begins }
{
    if old < SEEN {
        begins % SEEN + SEEN
    } else {
        2 * SEEN
    }
}

// A record, where there is room for its identifier.
fn close(owners: &mut [u8], priorities: &mut [u16], offsets: &mut [u16], s: State)
    requires { Fitting owners.old priorities.old offsets.old }
    ensures { Closes s owners.old priorities.old offsets.old owners.new
        priorities.new
        offsets.new }
{
    let at = s.identifier as usize;
    if at < owners.len() {
        owners[at] = capped(s.owner);
        priorities[at] = s.priority;
        offsets[at] = word_next(offsets[at], s.begins);
    }
}

// One byte. What it makes whole is written.
pub fn read_byte(
    s: State,
    b: u8,
    vertices: u16,
    edges: u16,
    owners: &mut [u8],
    priorities: &mut [u16],
    offsets: &mut [u16],
    targets: &mut [u16],
) -> Result<State, Stop>
    requires { LimitRoom vertices edges owners.old priorities.old offsets.old targets.old }
    ensures { Steps vertices edges s b owners.old priorities.old offsets.old
        targets.old result owners.new priorities.new offsets.new
        targets.new }
{
    match advance(s, b, vertices, edges)? {
        Move::On(next) => Ok(next),
        Move::Aim(next) => {
            aim(targets, s.edges, s.value);
            Ok(next)
        }
        Move::Close(next) => {
            close(owners, priorities, offsets, s);
            Ok(next)
        }
        Move::AimClose(next) => {
            aim(targets, s.edges, s.value);
            close(owners, priorities, offsets, s);
            Ok(next)
        }
    }
}
