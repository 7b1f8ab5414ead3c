// 22, a vertex at a time, and the number that a wrong entry gets.
ghost use Rattle.std.specs.Prelude.{◌≡◌, ◌*◌, ◌<◌, length};
ghost use Rattle.rules.specs.Outcome.{given_at};
ghost use Rattle.parity_game.specs.Said.{refusal, refusal_of, verdict};
ghost use Rattle.checker_entries.specs.Entries.{own_by, unchosen, entry_number, EntriesGiven, wrong_entry};

use parity_game::{Checked, NO_ENTRY, Refusal, VertexIndex};

// Whether v belongs to the player whose set holds it.
#[tactic(auto, using(crate::specs::Entries::own_even, crate::specs::Entries::own_odd))]
pub fn is_own(owners: &[u8], even: &[u64], v: usize) -> bool
    requires { (v < length owners.now) × (v < 64 * length even.now) }
    ensures { result ≡ own_by owners.now even.now v }
{
    if sets::contains(even, v) {
        return owners[v] == 0;
    }
    owners[v] != 0
}

// Whether every entry is none.
fn nothing_chosen(strategy: &[u16]) -> bool
    ensures { result ≡ unchosen strategy.now }
{
    strategy.iter().all(|&entry| entry == NO_ENTRY)
}

// What the wrong entry of v is given: 22, or 25 in its place where every entry is none.
fn bad_entry(strategy: &[u16], v: usize) -> Refusal
    ensures { refusal_of result ≡ refusal (entry_number strategy.now) v }
{
    if nothing_chosen(strategy) {
        Refusal::NoStrategy(VertexIndex(v))
    } else {
        Refusal::BadEntry(VertexIndex(v))
    }
}

// 22: an entry that is not none where the owner isn't the winner, or that is no target where it is.
pub fn check_entries(
    owners: &[u8],
    offsets: &[u16],
    targets: &[u16],
    even: &[u64],
    strategy: &[u16],
) -> Checked
    requires { EntriesGiven owners.now offsets.now targets.now even.now strategy.now }
    ensures { verdict result ≡
        given_at (entry_number strategy.now) (length owners.now)
        (wrong_entry owners.now offsets.now targets.now even.now strategy.now) }
{
    'vertices: for v in 0..owners.len() {
        if !is_own(owners, even, v) {
            if strategy[v] != NO_ENTRY {
                return Err(bad_entry(strategy, v));
            }
            continue 'vertices;
        }
        for e in offsets[v] as usize..offsets[v + 1] as usize {
            if targets[e] == strategy[v] {
                continue 'vertices;
            }
        }
        return Err(bad_entry(strategy, v));
    }
    Ok(())
}
