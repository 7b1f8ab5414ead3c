// What each class of byte asks for in each phase: a match on the class, then one on the phase.
ghost use Rattle.std.specs.Prelude.{◌≡◌};
ghost use Rattle.pgsolver_acts.specs.Shown.{class_in};
ghost use Rattle.pgsolver_acts.specs.Acts.{on_separator, on_digit, on_comma, on_semicolon, on_quote};
ghost use Rattle.pgsolver_acts.specs.Acts.{on_letter, on_other, act_on};

use crate::class::Class;
use crate::state::Phase;

#[derive(Clone, Copy)]
pub enum Act {
    Stay,
    // No text of the grammar can follow.
    Off,
    To(Phase),
    // The byte is to be letter k of `parity`.
    Spell(u8),
    // The first digit of a number: without a limit on how many, or with.
    Begin(Phase),
    BeginIdentifier,
    BeginTarget,
    // A further digit.
    More,
    // A number is read: N, or one of a record.
    Head(Phase),
    Identify,
    Rank,
    Own,
    Aim(Phase),
    // A target is read, and the record is whole; or it is whole.
    AimClose,
    Close,
}

// A separator ends a number, or the word.
fn on_separator(phase: Phase) -> Act
    ensures { result ≡ on_separator phase }
{
    match phase {
        Phase::InWord(6) => Act::To(Phase::PastWord),
        Phase::InWord(_) => Act::Off,
        Phase::InHighest => Act::Head(Phase::PastHighest),
        Phase::InIdentifier => Act::Identify,
        Phase::InPriority => Act::Rank,
        Phase::InOwner => Act::Own,
        Phase::InTarget => Act::Aim(Phase::PastTarget),
        _ => Act::Stay,
    }
}

// A digit begins a number or goes on with it.
fn on_digit(phase: Phase) -> Act
    ensures { result ≡ on_digit phase }
{
    match phase {
        Phase::AtStart | Phase::BetweenRecords => Act::BeginIdentifier,
        Phase::PastWord => Act::Begin(Phase::InHighest),
        Phase::PastIdentifier => Act::Begin(Phase::InPriority),
        Phase::PastPriority => Act::Begin(Phase::InOwner),
        Phase::PastOwner | Phase::PastComma => Act::BeginTarget,
        Phase::InHighest
        | Phase::InIdentifier
        | Phase::InPriority
        | Phase::InOwner
        | Phase::InTarget => Act::More,
        Phase::InName => Act::Stay,
        _ => Act::Off,
    }
}

// A comma stands behind a target, or in a name.
fn on_comma(phase: Phase) -> Act
    ensures { result ≡ on_comma phase }
{
    match phase {
        Phase::InTarget => Act::Aim(Phase::PastComma),
        Phase::PastTarget => Act::To(Phase::PastComma),
        Phase::InName => Act::Stay,
        _ => Act::Off,
    }
}

// A semicolon ends the header or a record, or stands in a name.
fn on_semicolon(phase: Phase) -> Act
    ensures { result ≡ on_semicolon phase }
{
    match phase {
        Phase::InHighest => Act::Head(Phase::BetweenRecords),
        Phase::PastHighest => Act::To(Phase::BetweenRecords),
        Phase::InTarget => Act::AimClose,
        Phase::PastTarget => Act::Close,
        Phase::InName => Act::Stay,
        Phase::PastName => Act::Close,
        _ => Act::Off,
    }
}

// A quote begins a name or ends it.
fn on_quote(phase: Phase) -> Act
    ensures { result ≡ on_quote phase }
{
    match phase {
        Phase::InTarget => Act::Aim(Phase::InName),
        Phase::PastTarget => Act::To(Phase::InName),
        Phase::InName => Act::To(Phase::PastName),
        _ => Act::Off,
    }
}

// A letter is one of `parity`, or stands in a name.
fn on_letter(phase: Phase) -> Act
    ensures { result ≡ on_letter phase }
{
    match phase {
        Phase::AtStart => Act::Spell(0),
        Phase::InWord(k) => Act::Spell(k),
        Phase::InName => Act::Stay,
        _ => Act::Off,
    }
}

// Any other byte stands in a name alone.
fn on_other(phase: Phase) -> Act
    ensures { result ≡ on_other phase }
{
    match phase {
        Phase::InName => Act::Stay,
        _ => Act::Off,
    }
}

// What a class asks for in a phase.
pub fn act_on(class: Class, phase: Phase) -> Act
    ensures { result ≡ act_on (class_in class) phase }
{
    match class {
        Class::Separator => on_separator(phase),
        Class::Digit => on_digit(phase),
        Class::Comma => on_comma(phase),
        Class::Semicolon => on_semicolon(phase),
        Class::Quote => on_quote(phase),
        Class::Letter => on_letter(phase),
        Class::Other => on_other(phase),
    }
}
