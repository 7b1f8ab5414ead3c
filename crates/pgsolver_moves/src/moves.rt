// What a byte does to the state, over numbers alone: what its class asks for in the phase, done.
ghost use Rattle.std.specs.Prelude.{◌≡◌};
ghost use Rattle.grammar.specs.Machine.{class_of};
ghost use Rattle.pgsolver_acts.specs.Acts.{act_on};
ghost use Rattle.pgsolver_moves.specs.Moves.{more_on, begins_on, spelled_on, move_of};

use pgsolver_acts::acts::{Act, act_on};
use pgsolver_acts::class::class_of;
use pgsolver_acts::state::{Phase, State};

// The highest number of a text.
const HIGHEST_NUMBER: u32 = 65535;

#[derive(Clone, Copy)]
pub enum Move {
    On(State),
    // On, and the target just read is whole.
    Aim(State),
    // On, and the record is whole.
    Close(State),
    // On, and both are.
    AimClose(State),
}

// Why a byte is not read.
#[derive(Clone, Copy, Debug, PartialEq, Eq)]
pub enum Stop {
    // No text of the grammar can follow.
    Off,
    // A limit is passed.
    Over,
}

// The number at hand with one digit more, unless that takes it above 65,535. A digit's value is the lower half of its
// byte.
fn more(s: State, b: u8) -> Result<Move, Stop>
    ensures { result ≡ more_on s b }
{
    let value = 10 * (s.value as u32) + (b % 16) as u32;
    if HIGHEST_NUMBER < value {
        return Err(Stop::Over);
    }
    Ok(Move::On(State {
        value: value as u16,
        ..s
    }))
}

// The first digit of a number, where the limit leaves room for it.
fn begins(s: State, phase: Phase, b: u8, room: bool) -> Result<Move, Stop>
    ensures { result ≡ begins_on room phase s b }
{
    if !room {
        return Err(Stop::Over);
    }
    Ok(Move::On(s.reading(phase, (b % 16) as u16)))
}

// Letter k of `parity` more.
fn spelled(s: State, k: u8, b: u8) -> Result<Move, Stop>
    ensures { result ≡ spelled_on s k b }
{
    if b"parity".get(k as usize) != Some(&b) {
        return Err(Stop::Off);
    }
    Ok(Move::On(s.to(Phase::InWord(k + 1))))
}

// What is asked for, done.
fn done(act: Act, s: State, b: u8, vertices: u16, edges: u16) -> Result<Move, Stop>
    ensures { result ≡ move_of act s b vertices edges }
{
    match act {
        Act::Stay => Ok(Move::On(s)),
        Act::Off => Err(Stop::Off),
        Act::To(phase) => Ok(Move::On(s.to(phase))),
        Act::Spell(k) => spelled(s, k, b),
        Act::Begin(phase) => begins(s, phase, b, true),
        Act::BeginIdentifier => begins(s, Phase::InIdentifier, b, s.records < vertices),
        Act::BeginTarget => begins(s, Phase::InTarget, b, s.edges < edges),
        Act::More => more(s, b),
        Act::Head(phase) => Ok(Move::On(s.headed(phase))),
        Act::Identify => Ok(Move::On(s.identified())),
        Act::Rank => Ok(Move::On(s.ranked())),
        Act::Own => Ok(Move::On(s.owned())),
        Act::Aim(phase) => Ok(Move::Aim(s.aimed(phase))),
        Act::AimClose => Ok(Move::AimClose(s.aimed(Phase::PastTarget).closed())),
        Act::Close => Ok(Move::Close(s.closed())),
    }
}

// One byte, over numbers alone.
pub fn advance(s: State, b: u8, vertices: u16, edges: u16) -> Result<Move, Stop>
    ensures { result ≡ move_of (act_on (class_of b) s.phase) s b vertices edges }
{
    done(act_on(class_of(b), s.phase), s, b, vertices, edges)
}
