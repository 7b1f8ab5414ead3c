// A reading or an outcome written into the first 13 words, and a reading found there again.
ghost use Rattle.std.specs.Prelude.{◌≡◌, ◌%◌, ◌≤◌, length, get_or};
ghost use Rattle.parity_game.specs.Said.{said, refusal};
ghost use Rattle.pgsolver_words.specs.Words.{state_in, place_in, KeepsReading, Gives};

use crate::phases::{phase_in, phase_word};
use parity_game::{Answer, Refusal};
use pgsolver_acts::state::State;

// Where a reading is.
pub fn keep(words: &mut [u64], most_bytes: u64, place: u64, state: State)
    requires { 32 ≤ length words.old }
    ensures { KeepsReading most_bytes place state words.old words.new }
{
    let kept = [
        0u64,
        most_bytes,
        place,
        phase_word(state.phase),
        u64::from(state.said),
        state.highest as u64,
        state.records as u64,
        state.edges as u64,
        state.identifier as u64,
        state.priority as u64,
        state.owner as u64,
        state.begins as u64,
        state.value as u64,
    ];
    sets::copy_from(&mut words[0..13], &kept);
}

// An outcome, with the sizes that go with it.
pub fn give(words: &mut [u64], number: u64, place: u64, n: u64, m: u64)
    requires { 32 ≤ length words.old }
    ensures { Gives number place n m words.old words.new }
{
    let given = [1u64, number, place, n, m, 0, 0, 0, 0, 0, 0, 0, 0];
    sets::copy_from(&mut words[0..13], &given);
}

// The low part of a word.
fn low(word: u64) -> u16
    ensures { result ≡ word % 65536 }
{
    (word % 65536) as u16
}

// The state of a reading.
pub fn found(words: &[u64]) -> State
    requires { 32 ≤ length words.now }
    ensures { result ≡ state_in words.now }
{
    State {
        phase: phase_in(words[3]),
        said: words[4] == 1,
        highest: low(words[5]),
        records: low(words[6]),
        edges: low(words[7]),
        identifier: low(words[8]),
        priority: low(words[9]),
        owner: low(words[10]),
        begins: low(words[11]),
        value: low(words[12]),
    }
}

// How many bytes were read: never more than may be.
pub fn place_found(words: &[u64]) -> u64
    requires { 32 ≤ length words.now }
    ensures { result ≡ place_in words.now }
{
    words[2].min(words[1])
}

// The outcome that is there, given again: an answer, or its number and place once more.
pub fn outcome_found(words: &[u64]) -> Answer
    requires { 32 ≤ length words.now }
    ensures { said result ≡ refusal (get_or words.now 1 0) (get_or words.now 2 0) }
{
    match (words[1], words[2]) {
        (0, 0) => Ok(0),
        (number, place) => Err(Refusal::Again(number, place)),
    }
}
