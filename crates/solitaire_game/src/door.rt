// The solver of accepted tables: it checks all else that it takes, works in the first W words of the work area, and
// leaves them 0.
ghost use Rattle.std.specs.Prelude.{◌≡◌, length, replicate};
ghost use Rattle.rules.specs.Record.{fresh_count};
ghost use Rattle.rules.specs.Solitaire.{SolvesSolitaire, solitaire, sole_owner};
ghost use Rattle.rules.specs.Tables.{game_of, vertices, tables_of, Accepted};
ghost use Rattle.rules.specs.Words.{Holds};
ghost use Rattle.parity_game.specs.Said.{said};
ghost use Rattle.solitaire_game.specs.Running.{SolitaireRunnable};

use crate::checks::{check_lent, sole_owner};
use crate::marking::{mark_good, place};
use area::next_set;
use parity_game::Answer;
use search_rows::Rows;

// The work itself, in W words, which are left 0: the attractor of the good parts, for the owner, among all vertices.
fn run(
    owners: &[u8],
    priorities: &[u16],
    offsets: &[u16],
    targets: &[u16],
    kept: &[u64],
    set: &mut [u64],
    work: &mut [u64],
)
    requires { SolitaireRunnable (tables_of owners.now priorities.now offsets.now targets.now) set.old
        work.old × (kept.now ≡ fresh_count priorities.now) }
    ensures { let t =
        tables_of owners.now priorities.now offsets.now targets.now in
        (work.new ≡ replicate (length work.old) 0) ×
        Holds (vertices t) (solitaire (game_of t) (sole_owner t)) set.new }
{
    let n = owners.len();
    let s = set.len();
    let owner = sole_owner(owners);
    let m = targets.len();
    let row = Rows { n, m }.behind();
    let base = Rows { n, m }.sets();
    let good = next_set(base, s);
    mark_good(owners, priorities, offsets, targets, kept, owner, work, row);
    place(work, n, s, row, base);
    attractor::attract(owners, offsets, targets, owner, work, base, good);
    sets::copy_from(set, &work[good..good + s]);
    sets::clear(work, 0, work.len());
}

pub fn solve_solitaire_game(
    owners: &[u8],
    priorities: &[u16],
    offsets: &[u16],
    targets: &[u16],
    kept: &[u64],
    set: &mut [u64],
    work: &mut [u64],
) -> Answer
    requires { Accepted (tables_of owners.now priorities.now offsets.now targets.now) ×
        (kept.now ≡ fresh_count priorities.now) }
    ensures { SolvesSolitaire
        (tables_of owners.now priorities.now offsets.now targets.now)
        (record { set = set.old; work = work.old })
        (record { set = set.new; work = work.new })
        (said result) }
{
    let m = targets.len();
    check_lent(owners, m, set.len(), work.len())?;
    let w = parity_game::work_words(owners.len(), m);
    run(
        owners,
        priorities,
        offsets,
        targets,
        kept,
        set,
        &mut work[0..w],
    );
    Ok(0)
}
