// The attractor.
ghost use Rattle.rules.specs.Attracts.{LentResult, Attracts};
ghost use Rattle.rules.specs.Game.{player_of};
ghost use Rattle.rules.specs.Record.{record_of, ByRecord};
ghost use Rattle.telling.specs.Doors.{told};

#[unsafe(no_mangle)]
pub extern "C" fn reckonbough_attractor(
    n: u64,
    m: u64,
    owners: &[u8],
    priorities: &[u16],
    offsets: &[u16],
    targets: &[u16],
    kept: &[u64],
    player: u8,
    within: &[u64],
    target: &[u64],
    res: &mut [u64],
    strategy: &mut [u16],
    distances: &mut [u16],
    work: &mut [u64],
    place: &mut u64,
    count: &mut u64,
) -> u64
    ensures { (let before : LentResult =
        record {
          result = res.old;
          strategy = strategy.old;
          distances = distances.old;
          work = work.old;
        } in
        let after : LentResult =
        record {
          result = res.new;
          strategy = strategy.new;
          distances = distances.new;
          work = work.new;
        } in
        ByRecord
        (record_of n m owners.now priorities.now offsets.now targets.now
        kept.now)
        (told result place.new count.new) before after
        (λ t.
        Attracts t (player_of player) within.now target.now before after
        (told result place.new count.new))) }
{
    reckonbough_attractor::attraction::reckonbough_attractor(
        n, m, owners, priorities, offsets, targets, kept, player, within, target, res, strategy,
        distances, work, place, count,
    )
}
