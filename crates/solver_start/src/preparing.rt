// The work area at first.
ghost use Rattle.solver_start.specs.Preparing.{Preparable, Prepared};

// The predecessor table is built, and the set of all vertices stands at `base`.
pub fn prepare(offsets: &[u16], targets: &[u16], n: usize, s: usize, work: &mut [u64], base: usize)
    requires { Preparable n offsets.now targets.now s base work.old }
    ensures { Prepared n offsets.now targets.now base work.old
        work.new }
{
    predecessors::build(offsets, targets, n, work);
    sets::clear(work, base, s);
    sets::fill(&mut work[base..base + s], n);
}
