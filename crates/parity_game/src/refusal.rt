// What a call gives: a count, or why it is refused. `Refusal` has a case for each number of the table, with what the
// table gives as its place; the header and the Rust crate give the numbers the same names. 13, which comes with a
// count, is no case: it is the solvers' own (`solver::Unsolved`).
ghost use Rattle.std.specs.Prelude.{◌≡◌};
ghost use Rattle.parity_game.specs.Said.{refusal_of};

use crate::player::VertexIndex;

#[derive(Clone, Copy, Debug, PartialEq, Eq)]
pub enum Refusal {
    TooManyVertices,
    TableLengths,
    TooManyEdges,
    BadOwner(VertexIndex),
    BadPriority(VertexIndex),
    // At an entry of the offsets.
    BadOffset(usize),
    // At an edge.
    BadTarget(usize),
    DeadEnd(VertexIndex),
    BadSize,
    ShortWork,
    OwnersDiffer,
    // At a bit of a set.
    StrayBit(usize),
    // At a bit of the two sets.
    NotOneWinner(usize),
    BadEntry(VertexIndex),
    LeavesSet(VertexIndex),
    LosingCycle(VertexIndex),
    NoStrategy(VertexIndex),
    // At a byte of the text.
    BadText(u64),
    // At an identifier, or at their number where the header says another.
    BadIdentifier(usize),
    // At a byte of the text.
    BeyondLimit(u64),
    NoVertex,
    // With the length that the text needs.
    ShortText(usize),
    ShortOutput,
    // At what was asked for: an entry of a table, or a vertex.
    NoSuchEntry(usize),
    HighPriority(usize),
    NoSuchTarget(usize),
    NoSuchVertex(u64),
    ShortList,
    NoLoop(VertexIndex),
    KeptDiffer,
    NoSuchOwner(usize),
    // The number and place that an earlier call gave, said once more.
    Again(u64, u64),
}

// The count of what was asked for, or why there is none.
pub type Answer = Result<u64, Refusal>;

// A check passes, or says what it refuses.
pub type Checked = Result<(), Refusal>;

impl Refusal {
    pub fn number(self) -> u64
        ensures { result ≡ (refusal_of self).number }
    {
        match self {
            Refusal::TooManyVertices => 1,
            Refusal::TableLengths => 2,
            Refusal::TooManyEdges => 3,
            Refusal::BadOwner(_) => 4,
            Refusal::BadPriority(_) => 5,
            Refusal::BadOffset(_) => 6,
            Refusal::BadTarget(_) => 7,
            Refusal::DeadEnd(_) => 8,
            Refusal::BadSize => 9,
            Refusal::ShortWork => 10,
            Refusal::OwnersDiffer => 11,
            Refusal::StrayBit(_) => 12,
            Refusal::NotOneWinner(_) => 21,
            Refusal::BadEntry(_) => 22,
            Refusal::LeavesSet(_) => 23,
            Refusal::LosingCycle(_) => 24,
            Refusal::NoStrategy(_) => 25,
            Refusal::BadText(_) => 30,
            Refusal::BadIdentifier(_) => 31,
            Refusal::BeyondLimit(_) => 32,
            Refusal::NoVertex => 33,
            Refusal::ShortText(_) => 34,
            Refusal::ShortOutput => 35,
            Refusal::NoSuchEntry(_) => 41,
            Refusal::HighPriority(_) => 42,
            Refusal::NoSuchTarget(_) => 43,
            Refusal::NoSuchVertex(_) => 44,
            Refusal::ShortList => 45,
            Refusal::NoLoop(_) => 46,
            Refusal::KeptDiffer => 47,
            Refusal::NoSuchOwner(_) => 48,
            Refusal::Again(number, _) => number,
        }
    }

    pub fn place(self) -> u64
        ensures { result ≡ (refusal_of self).place }
    {
        match self {
            Refusal::BadOwner(v)
            | Refusal::BadPriority(v)
            | Refusal::DeadEnd(v)
            | Refusal::BadEntry(v)
            | Refusal::LeavesSet(v)
            | Refusal::LosingCycle(v)
            | Refusal::NoStrategy(v)
            | Refusal::NoLoop(v) => v.0 as u64,
            Refusal::BadOffset(at)
            | Refusal::BadTarget(at)
            | Refusal::StrayBit(at)
            | Refusal::NotOneWinner(at)
            | Refusal::BadIdentifier(at)
            | Refusal::ShortText(at)
            | Refusal::NoSuchEntry(at)
            | Refusal::HighPriority(at)
            | Refusal::NoSuchTarget(at)
            | Refusal::NoSuchOwner(at) => at as u64,
            Refusal::BadText(at)
            | Refusal::BeyondLimit(at)
            | Refusal::NoSuchVertex(at)
            | Refusal::Again(_, at) => at,
            _ => 0,
        }
    }
}
