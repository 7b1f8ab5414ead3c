// The state at first.
ghost use Rattle.std.specs.Prelude.{List, ◌≡◌, ℕ, length};
ghost use Rattle.predecessors.specs.Table.{SoundEdges};
ghost use Rattle.attractor.specs.Attracted.{Listed};
ghost use Rattle.promotion_begin.specs.FirstLevel.{StartBeginnable, Begun};

use area::Area;
use parity_game::{Player, Priority};
use promotion_levels::{descend, won_at};

// The table of predecessors stands already, and the first level, whose priorities are at most `top`. Its vertices have
// their priorities as regions and no entries.
pub fn begin(
    priorities: &[u16],
    m: usize,
    s: usize,
    work: &mut [u64],
    held: usize,
    levels: usize,
    top: Priority,
) -> Priority
    requires { StartBeginnable priorities.now m s held levels top.0 work.old }
    ensures { (offsets targets : List ℕ) → length targets ≡ m →
        SoundEdges (length priorities.now) offsets targets →
        Listed (length priorities.now) offsets targets work.old →
        Begun priorities.now offsets targets s result.0 work.old work.new }
{
    let n = priorities.len();
    let first = Area { n, m, s }.free();
    let won = won_at(held, s, Player::Even);
    sets::clear(work, won, 2 * s);
    priority_sets::make(priorities, s, work, first);
    descend(priorities, m, s, work, held, levels, 0, top)
}
