// What is small in the state of a reading: numbers by value. All else waits in the tables.
ghost use Rattle.std.specs.Prelude.{◌≡◌};
ghost use Rattle.pgsolver_acts.specs.Shown.{to_phase, reading_on, headed_on, identified_on, ranked_on};
ghost use Rattle.pgsolver_acts.specs.Shown.{owned_on, aimed_on, closed_on};

// Where in a text: in a piece, or past it.
#[derive(Clone, Copy)]
pub enum Phase {
    AtStart,
    // So many letters of `parity`.
    InWord(u8),
    PastWord,
    InHighest,
    PastHighest,
    // Behind the semicolon of the header or of a record.
    BetweenRecords,
    InIdentifier,
    PastIdentifier,
    InPriority,
    PastPriority,
    InOwner,
    PastOwner,
    InTarget,
    PastTarget,
    PastComma,
    InName,
    PastName,
}

#[derive(Clone, Copy)]
pub struct State {
    pub phase: Phase,
    // Whether the text said N, and N.
    pub said: bool,
    pub highest: u16,
    // How many whole records, and how many whole targets in all.
    pub records: u16,
    pub edges: u16,
    // The record at hand, and where its targets begin.
    pub identifier: u16,
    pub priority: u16,
    pub owner: u16,
    pub begins: u16,
    // The number at hand, as far as it is read.
    pub value: u16,
}

// A count is kept below 32,768 before it grows, so that no state handed in makes it wrap.
impl State {
    // In another phase.
    pub fn to(self, phase: Phase) -> State
        ensures { result ≡ to_phase phase self }
    {
        State { phase, ..self }
    }

    // In a number whose value so far is given.
    pub fn reading(self, phase: Phase, value: u16) -> State
        ensures { result ≡ reading_on phase value self }
    {
        State {
            phase,
            value,
            ..self
        }
    }

    // N is read.
    pub fn headed(self, phase: Phase) -> State
        ensures { result ≡ headed_on phase self }
    {
        State {
            phase,
            said: true,
            highest: self.value,
            value: 0,
            ..self
        }
    }

    // The identifier is read.
    pub fn identified(self) -> State
        ensures { result ≡ identified_on self }
    {
        State {
            phase: Phase::PastIdentifier,
            identifier: self.value,
            priority: 0,
            owner: 0,
            value: 0,
            ..self
        }
    }

    // The priority is read.
    pub fn ranked(self) -> State
        ensures { result ≡ ranked_on self }
    {
        State {
            phase: Phase::PastPriority,
            priority: self.value,
            owner: 0,
            value: 0,
            ..self
        }
    }

    // The owner is read.
    pub fn owned(self) -> State
        ensures { result ≡ owned_on self }
    {
        State {
            phase: Phase::PastOwner,
            owner: self.value,
            value: 0,
            ..self
        }
    }

    // A target is read.
    pub fn aimed(self, phase: Phase) -> State
        ensures { result ≡ aimed_on phase self }
    {
        State {
            phase,
            edges: self.edges % 32768 + 1,
            value: 0,
            ..self
        }
    }

    // The record is whole.
    pub fn closed(self) -> State
        ensures { result ≡ closed_on self }
    {
        State {
            phase: Phase::BetweenRecords,
            records: self.records % 32768 + 1,
            identifier: 0,
            priority: 0,
            owner: 0,
            begins: self.edges,
            value: 0,
            ..self
        }
    }
}
