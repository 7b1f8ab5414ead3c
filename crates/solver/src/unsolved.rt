// Why a solver gives no answer.
ghost use Rattle.solver.specs.declared.unsolved.Unsolved.TheVariants.{Refused};
ghost use Rattle.std.specs.Prelude.{◌≡◌};

use parity_game::Refusal;

#[derive(Clone, Copy, Debug, PartialEq, Eq)]
pub enum Unsolved {
    Refused(Refusal),
    // 13, with the budget, which the table gives as the count.
    OverBudget(u64),
}

impl From<Refusal> for Unsolved {
    ghost from_gives = { λ r e. e ≡ Refused r };

    fn from(r: Refusal) -> Unsolved {
        Unsolved::Refused(r)
    }
}
