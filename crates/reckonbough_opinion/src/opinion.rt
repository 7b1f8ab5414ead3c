// The second opinion, by the quasi-polynomial recursion.
ghost use Rattle.rules.specs.Record.{record_of, ByRecord};
ghost use Rattle.rules.specs.SecondOpinion.{LentSets, GivesOpinion};
ghost use Rattle.telling.specs.Doors.{told};

use telling::tell;

pub fn reckonbough_quasi_polynomial(
    n: u64,
    m: u64,
    owners: &[u8],
    priorities: &[u16],
    offsets: &[u16],
    targets: &[u16],
    kept: &[u64],
    even: &mut [u64],
    odd: &mut [u64],
    work: &mut [u64],
    place: &mut u64,
    count: &mut u64,
) -> u64
    ensures { (let before : LentSets =
        record { even = even.old; odd = odd.old; work = work.old } in
        let after : LentSets =
        record { even = even.new; odd = odd.new; work = work.new } in
        ByRecord
        (record_of n m owners.now priorities.now offsets.now targets.now
        kept.now)
        (told result place.new count.new) before after
        (λ t. GivesOpinion t before after (told result place.new count.new))) }
{
    let n = n as usize;
    let m = m as usize;
    match record::check_record(n, m, owners, priorities, offsets, targets, kept) {
        Ok(()) => {
            let done = quasi_polynomial::solve_quasi_polynomial(
                &owners[..n],
                &priorities[..n],
                &offsets[..n + 1],
                &targets[..m],
                kept,
                even,
                odd,
                work,
            );
            tell(done, place, count)
        }
        Err(refused) => tell(Err(refused), place, count),
    }
}
