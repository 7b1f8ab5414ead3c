// One step: a member is taken, and each of its predecessor entries is looked at once, those outside V included.
ghost use Rattle.attractor_drawing.specs.Drawn.{drawn};
ghost use Rattle.attractor_step.specs.TakeLoop.{Takeable, Took};

use attractor_drawing::Drawing;
use attractor_look::touch;

// Takes w: looks at each entry of its row.
pub fn take(drawing: &Drawing, work: &mut [u64], next: usize, w: usize, far: u64)
    requires { Takeable (drawn drawing.now) next work.old w far }
    ensures { Took (drawn drawing.now) next w far work.old work.new }
{
    let sources = predecessors::sources_at(drawing.owners.len());
    let first = work[w] as usize;
    let last = work[w + 1] as usize;
    for e in first..last {
        let v = work[sources + e] as usize;
        touch(drawing, work, next, w, far, v);
    }
}
