// The refusals 9 and 10, with the larger work area that this solver asks for. None writes anything.
ghost use Rattle.std.specs.Prelude.{◌≡◌, ◌≤◌};
ghost use Rattle.rules.specs.SecondOpinion.{opinion_words, opinion_check10};
ghost use Rattle.parity_game.specs.Said.{verdict};
ghost use Rattle.quasi_polynomial.specs.Checks.{lent_checks};

use parity_game::{Checked, Refusal};

// W: 2,064 s words more than the other solvers'.
pub fn opinion_words(n: usize, m: usize) -> usize
    requires { (n ≤ 4096) × (m ≤ 16384) }
    ensures { result ≡ opinion_words n m }
{
    parity_game::work_words(n, m) + 2064 * parity_game::set_words(n)
}

// 10.
#[tactic(auto, unfolding(rules::specs::SecondOpinion::opinion_check10))]
fn check_room(n: usize, m: usize, work: usize) -> Checked
    requires { (n ≤ 4096) × (m ≤ 16384) }
    ensures { verdict result ≡ opinion_check10 n m work }
{
    if work < opinion_words(n, m) {
        return Err(Refusal::ShortWork);
    }
    Ok(())
}

// 9 and 10, by the lengths of what is lent.
#[tactic(auto, using(crate::specs::Checks::checks_in_order))]
pub fn check_lent(n: usize, m: usize, even: usize, odd: usize, work: usize) -> Checked
    requires { (n ≤ 4096) × (m ≤ 16384) }
    ensures { verdict result ≡ lent_checks n m even odd work }
{
    parity_game::check_set(n, even)?;
    parity_game::check_set(n, odd)?;
    check_room(n, m, work)
}
