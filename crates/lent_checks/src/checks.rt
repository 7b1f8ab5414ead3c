// The checks, by the lengths of what is lent.
ghost use Rattle.std.specs.Prelude.{◌≡◌, ◌≤◌};
ghost use Rattle.parity_game.specs.Said.{verdict};
ghost use Rattle.lent_checks.specs.Checks.{lent_by};

use parity_game::Checked;

// 9 and 10, for n vertices and m edges of accepted tables, which it does not look at.
#[tactic(auto, using(crate::specs::Checks::checks_in_order))]
pub fn check_lent(
    n: usize,
    m: usize,
    even: usize,
    odd: usize,
    strategy: usize,
    work: usize,
) -> Checked
    requires { (n ≤ 4096) × (m ≤ 16384) }
    ensures { verdict result ≡ lent_by n m even odd strategy work }
{
    parity_game::check_set(n, even)?;
    parity_game::check_set(n, odd)?;
    parity_game::check_table(n, strategy)?;
    parity_game::check_work(n, m, work)
}
