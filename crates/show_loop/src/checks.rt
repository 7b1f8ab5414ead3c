// The refusals 10, 11, 44 and 45. None writes anything.
ghost use Rattle.std.specs.Prelude.{◌≡◌, ◌≤◌, length};
ghost use Rattle.parity_game.specs.Said.{verdict};
ghost use Rattle.show_loop.specs.Checks.{asked_checks, lent_by};

use parity_game::{Checked, Refusal};

// 44 and 45.
#[tactic(auto, unfolding(rules::specs::Loop::check44, rules::specs::Loop::check45))]
fn check_asked(n: usize, vertex: u64, path: usize, cycle: usize) -> Checked
    requires { n ≤ 4096 }
    ensures { verdict result ≡ asked_checks n vertex path cycle }
{
    if n as u64 <= vertex {
        return Err(Refusal::NoSuchVertex(vertex));
    }
    if path < 2 * n || cycle < 2 * n {
        return Err(Refusal::ShortList);
    }
    Ok(())
}

// All of them, by the lengths of what is lent, for accepted tables with m edges.
pub fn check_lent(
    owners: &[u8],
    m: usize,
    vertex: u64,
    path: usize,
    cycle: usize,
    work: usize,
) -> Checked
    requires { (length owners.now ≤ 4096) × (m ≤ 16384) }
    ensures { verdict result ≡ lent_by owners.now m vertex path cycle work }
{
    let n = owners.len();
    parity_game::check_work(n, m, work)?;
    solitaire_game::check_owners_equal(owners)?;
    check_asked(n, vertex, path, cycle)
}
