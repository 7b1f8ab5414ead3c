// The checks 4 and 5, of the tables that have an entry for each vertex: owners and priorities. The first that applies
// gives its place.
#![tactic(auto)]

ghost use Rattle.std.specs.Prelude.{◌≡◌, length};
ghost use Rattle.rules.specs.Tables.{check4, check5};
ghost use Rattle.parity_game.specs.Said.{verdict};

use parity_game::{Checked, HIGHEST_PRIORITY, Refusal, VertexIndex};

// 4: every owner is 0 or 1.
pub fn check_owners(owners: &[u8]) -> Checked
    ensures { verdict result ≡ check4 (length owners.now) owners.now }
{
    match owners.iter().position(|owner| 1 < *owner) {
        Some(v) => Err(Refusal::BadOwner(VertexIndex(v))),
        None => Ok(()),
    }
}

// 5: no priority is above 255.
pub fn check_priorities(priorities: &[u16]) -> Checked
    ensures { verdict result ≡ check5 (length priorities.now) priorities.now }
{
    match priorities
        .iter()
        .position(|priority| HIGHEST_PRIORITY < *priority)
    {
        Some(v) => Err(Refusal::BadPriority(VertexIndex(v))),
        None => Ok(()),
    }
}
