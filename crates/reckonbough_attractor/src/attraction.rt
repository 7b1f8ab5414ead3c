// The attractor.
ghost use Rattle.rules.specs.Attracts.{LentResult, Attracts};
ghost use Rattle.rules.specs.Game.{player_of};
ghost use Rattle.rules.specs.Record.{record_of, ByRecord};
ghost use Rattle.telling.specs.Doors.{told};

use parity_game::Player;
use telling::tell;

pub fn reckonbough_attractor(
    n: u64,
    m: u64,
    owners: &[u8],
    priorities: &[u16],
    offsets: &[u16],
    targets: &[u16],
    kept: &[u64],
    player: u8,
    within: &[u64],
    target: &[u64],
    res: &mut [u64],
    strategy: &mut [u16],
    distances: &mut [u16],
    work: &mut [u64],
    place: &mut u64,
    count: &mut u64,
) -> u64
    ensures { (let before : LentResult =
        record {
          result = res.old;
          strategy = strategy.old;
          distances = distances.old;
          work = work.old;
        } in
        let after : LentResult =
        record {
          result = res.new;
          strategy = strategy.new;
          distances = distances.new;
          work = work.new;
        } in
        ByRecord
        (record_of n m owners.now priorities.now offsets.now targets.now
        kept.now)
        (told result place.new count.new) before after
        (λ t.
        Attracts t (player_of player) within.now target.now before after
        (told result place.new count.new))) }
{
    let n = n as usize;
    let m = m as usize;
    match record::check_record(n, m, owners, priorities, offsets, targets, kept) {
        Ok(()) => {
            let alpha = Player::from_index(player);
            let done = attractor_door::attractor(
                &owners[..n],
                &priorities[..n],
                &offsets[..n + 1],
                &targets[..m],
                alpha,
                within,
                target,
                res,
                strategy,
                distances,
                work,
            );
            tell(done, place, count)
        }
        Err(refused) => tell(Err(refused), place, count),
    }
}
