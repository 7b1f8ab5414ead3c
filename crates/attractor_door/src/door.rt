// The attractor, on accepted tables: it checks all that it is lent, works in the work area, and writes only when it
// answers.
ghost use Rattle.std.specs.Prelude.{◌≡◌, ◌≤◌};
ghost use Rattle.rules.specs.Tables.{tables_of, Accepted};
ghost use Rattle.parity_game.specs.Said.{said, verdict, is};
ghost use Rattle.rules.specs.Attracts.{Attracts};
ghost use Rattle.attractor_checks.specs.Door.{lent_checks};

use attractor_checks::{check_bits, check_sizes};
use parity_game::{Answer, Checked, Player};

// 9, 10 and 12, by the lengths of what is lent.
#[tactic(auto, using(parity_game::specs::Laws::then_assoc))]
fn check_lent(
    n: usize,
    m: usize,
    within: &[u64],
    target: &[u64],
    res: usize,
    strategy: usize,
    distances: usize,
    work: usize,
) -> Checked
    requires { (n ≤ 4096) × (m ≤ 16384) }
    ensures { verdict result ≡ lent_checks n m within.now target.now res strategy distances work }
{
    check_sizes(
        n,
        m,
        within.len(),
        target.len(),
        res,
        strategy,
        distances,
        work,
    )?;
    check_bits(n, within, target)
}

pub fn attractor(
    owners: &[u8],
    priorities: &[u16],
    offsets: &[u16],
    targets: &[u16],
    player: Player,
    within: &[u64],
    target: &[u64],
    res: &mut [u64],
    strategy: &mut [u16],
    distances: &mut [u16],
    work: &mut [u64],
) -> Answer
    requires { Accepted (tables_of owners.now priorities.now offsets.now targets.now) }
    ensures { Attracts
        (tables_of owners.now priorities.now offsets.now targets.now)
        (is player) within.now target.now
        (record {
          result = res.old;
          strategy = strategy.old;
          distances = distances.old;
          work = work.old;
        })
        (record {
          result = res.new;
          strategy = strategy.new;
          distances = distances.new;
          work = work.new;
        })
        (said result) }
{
    let n = owners.len();
    let m = targets.len();
    check_lent(
        n,
        m,
        within,
        target,
        res.len(),
        strategy.len(),
        distances.len(),
        work.len(),
    )?;
    let w = parity_game::work_words(n, m);
    let alpha = player.index();
    Ok(attractor_run::run(
        owners,
        offsets,
        targets,
        alpha,
        within,
        target,
        res,
        strategy,
        distances,
        &mut work[0..w],
    ))
}
