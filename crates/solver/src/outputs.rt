// What a solver has found is written out.
ghost use Rattle.solver.specs.Outputs.{Writable, WroteOut};

use area::next_set;
use solver_entries::write_strategy;

// What Even wins stands at `at`, what Odd wins behind it, and the entries at `from`.
pub fn write_out(
    owners: &[u8],
    s: usize,
    from: usize,
    at: usize,
    work: &[u64],
    even: &mut [u64],
    odd: &mut [u64],
    strategy: &mut [u16],
)
    requires { Writable owners.now s from at work.now even.old odd.old strategy.old }
    ensures { WroteOut owners.now s from at work.now
        (record { even = even.old; odd = odd.old; strategy = strategy.old })
        (record { even = even.new; odd = odd.new; strategy = strategy.new }) }
{
    let n = owners.len();
    let next = next_set(at, s);
    sets::copy_from(even, &work[at..at + s]);
    sets::copy_from(odd, &work[next..next + s]);
    write_strategy(
        owners,
        &work[at..at + s],
        &work[next..next + s],
        &work[from..from + n],
        strategy,
    );
}
