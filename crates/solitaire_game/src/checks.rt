// The refusals 9 to 11, each its own function. None writes anything.
ghost use Rattle.std.specs.Prelude.{◌≡◌, ◌≤◌, length, get_or};
ghost use Rattle.rules.specs.Solitaire.{check11};
ghost use Rattle.parity_game.specs.Said.{verdict};
ghost use Rattle.solitaire_game.specs.Checks.{lent_by};

use parity_game::{Checked, Refusal};

// The owner of the first vertex, and so of all; Even where there is none.
pub fn sole_owner(owners: &[u8]) -> u8
    ensures { result ≡ get_or owners.now 0 0 }
{
    owners.first().copied().unwrap_or(0)
}

// 11: all owners are the first.
pub fn check_owners_equal(owners: &[u8]) -> Checked
    ensures { verdict result ≡ check11 (length owners.now) owners.now }
{
    let first = sole_owner(owners);
    if owners.iter().all(|&owner| owner == first) {
        Ok(())
    } else {
        Err(Refusal::OwnersDiffer)
    }
}

// 9 to 11, by the lengths of what is lent, for accepted tables with m edges.
pub fn check_lent(owners: &[u8], m: usize, set: usize, work: usize) -> Checked
    requires { (length owners.now ≤ 4096) × (m ≤ 16384) }
    ensures { verdict result ≡ lent_by owners.now m set work }
{
    let n = owners.len();
    parity_game::check_set(n, set)?;
    parity_game::check_work(n, m, work)?;
    check_owners_equal(owners)
}
