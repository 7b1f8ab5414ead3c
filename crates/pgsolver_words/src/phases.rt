// A phase as a word: its number, or 256 and so many letters of `parity`.
ghost use Rattle.std.specs.Prelude.{◌≡◌};
ghost use Rattle.pgsolver_words.specs.Words.{phase_in};

use pgsolver_acts::state::Phase;

pub fn phase_word(phase: Phase) -> u64
    ensures { phase_in result ≡ phase }
{
    match phase {
        Phase::AtStart => 0,
        Phase::InWord(k) => 256 + k as u64,
        Phase::PastWord => 1,
        Phase::InHighest => 2,
        Phase::PastHighest => 3,
        Phase::BetweenRecords => 4,
        Phase::InIdentifier => 5,
        Phase::PastIdentifier => 6,
        Phase::InPriority => 7,
        Phase::PastPriority => 8,
        Phase::InOwner => 9,
        Phase::PastOwner => 10,
        Phase::InTarget => 11,
        Phase::PastTarget => 12,
        Phase::PastComma => 13,
        Phase::InName => 14,
        Phase::PastName => 15,
    }
}

pub fn phase_in(word: u64) -> Phase
    ensures { result ≡ phase_in word }
{
    match word {
        0 => Phase::AtStart,
        1 => Phase::PastWord,
        2 => Phase::InHighest,
        3 => Phase::PastHighest,
        4 => Phase::BetweenRecords,
        5 => Phase::InIdentifier,
        6 => Phase::PastIdentifier,
        7 => Phase::InPriority,
        8 => Phase::PastPriority,
        9 => Phase::InOwner,
        10 => Phase::PastOwner,
        11 => Phase::InTarget,
        12 => Phase::PastTarget,
        13 => Phase::PastComma,
        14 => Phase::InName,
        15 => Phase::PastName,
        _ => Phase::InWord((word % 256) as u8),
    }
}
