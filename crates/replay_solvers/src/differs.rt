// Each solver's door on one game, and what it gave against the oracle's words.
ghost use Rattle.std.specs.Prelude.{false, ◌∷◌, [], ◌≡◌, length};
ghost use Rattle.rules.specs.Record.{record_of};
ghost use Rattle.replay_solvers.specs.Agrees.{Says, SaysSolitaire, made_by};

use oracle::Said;

#[derive(Clone, Copy, Debug, PartialEq, Eq)]
pub enum Solver {
    Zielonka,
    Promotion,
}

// What a solver gives: the number, and through the last reference the count.
fn solve(
    solver: Solver,
    owners: &[u8],
    priorities: &[u16],
    offsets: &[u16],
    targets: &[u16],
    kept: &[u64],
    even: &mut [u64],
    odd: &mut [u64],
    strategy: &mut [u16],
    work: &mut [u64],
    count: &mut u64,
) -> u64
    ensures { result ≡ 0 →
        Says solver
        (record_of (length owners.now) (length targets.now) owners.now
        priorities.now offsets.now targets.now kept.now)
        even.new odd.new count.new }
{
    let n = owners.len() as u64;
    let m = targets.len() as u64;
    let mut place = 0;
    match solver {
        Solver::Zielonka => reckonbough_solvers::recursion::reckonbough_zielonka(
            n, m, owners, priorities, offsets, targets, kept, 1000000, even, odd, strategy, work,
            &mut place, count,
        ),
        Solver::Promotion => reckonbough_solvers::promotion::reckonbough_priority_promotion(
            n, m, owners, priorities, offsets, targets, kept, 1000000, even, odd, strategy, work,
            &mut place, count,
        ),
    }
}

// The number that the checker gives.
fn check(
    owners: &[u8],
    priorities: &[u16],
    offsets: &[u16],
    targets: &[u16],
    kept: &[u64],
    even: &[u64],
    odd: &[u64],
    strategy: &[u16],
    work: &mut [u64],
) -> u64 {
    let mut place = 0;
    let mut count = 0;
    reckonbough_checker::certificate::reckonbough_check(
        owners.len() as u64,
        targets.len() as u64,
        owners,
        priorities,
        offsets,
        targets,
        kept,
        even,
        odd,
        strategy,
        work,
        &mut place,
        &mut count,
    )
}

// What the oracle says was needed: calls, or rounds.
fn needed(solver: Solver, said: Said) -> u64
    ensures { result ≡ made_by solver said.calls said.rounds }
{
    match solver {
        Solver::Zielonka => said.calls,
        Solver::Promotion => said.rounds,
    }
}

// No only where the solver's sets and count are the rules', its answer gets yes, and the oracle says the same of both.
pub fn solver_differs(
    solver: Solver,
    owners: &[u8],
    priorities: &[u16],
    offsets: &[u16],
    targets: &[u16],
    kept: &[u64],
    said: Said,
) -> bool
    ensures { result ≡ false →
        Says solver
        (record_of (length owners.now) (length targets.now) owners.now
        priorities.now offsets.now targets.now kept.now)
        (said.even ∷ []) (said.odd ∷ []) (made_by solver said.calls said.rounds) }
{
    let mut even = [0u64; 1];
    let mut odd = [0u64; 1];
    let mut entries = [0u16; 12];
    let mut work = [0u64; 600];
    let mut made = 0;
    let n = owners.len();
    if n > 12 {
        return true;
    }
    let strategy: &mut [u16] = &mut entries[0..n];
    let number = solve(
        solver, owners, priorities, offsets, targets, kept, &mut even, &mut odd, strategy,
        &mut work, &mut made,
    );
    let checked = check(
        owners, priorities, offsets, targets, kept, &even, &odd, strategy, &mut work,
    );
    let wanted = needed(solver, said);
    oracle::differs(number, made, checked, even[0], odd[0], wanted, said)
}

// No only where two owners are refused for that, or the set is the rules', and the oracle says the same.
pub fn solitaire_differs(
    owners: &[u8],
    priorities: &[u16],
    offsets: &[u16],
    targets: &[u16],
    kept: &[u64],
    said: Said,
) -> bool
    ensures { result ≡ false →
        SaysSolitaire said.two_owners
        (record_of (length owners.now) (length targets.now) owners.now
        priorities.now offsets.now targets.now kept.now)
        (said.solitaire ∷ []) }
{
    let n = owners.len() as u64;
    let m = targets.len() as u64;
    let mut set = [0u64; 1];
    let mut work = [0u64; 600];
    let mut place = 0;
    let mut count = 0;
    let number = reckonbough_solitaire::solitaire::reckonbough_solitaire(
        n, m, owners, priorities, offsets, targets, kept, &mut set, &mut work, &mut place,
        &mut count,
    );
    oracle::set_differs(number, set[0], said)
}
