// A set whose members lose their entries.
ghost use Rattle.std.specs.Prelude.{ℕ};
ghost use Rattle.promotion_sets.specs.Forgetting.{Forgettable, Forgotten};

use area::NO_ENTRY;
use parity_game::VertexIndex;
use walk::Members;

// Every member of the set loses its entry.
pub fn forget(s: usize, work: &mut [u64], set: usize, entries: usize)
    requires { (n : ℕ) × Forgettable n s set entries work.old }
    ensures { (n : ℕ) → Forgettable n s set entries work.old →
        Forgotten n set entries work.old work.new }
{
    let mut walk = Members::new(work, set, s);
    while let Some(VertexIndex(v)) = walk.next(work, set, s) {
        work[entries + v] = NO_ENTRY;
    }
}
