// One look, and how a vertex comes in.
ghost use Rattle.std.specs.Prelude.{ℕ};
ghost use Rattle.attractor_drawing.specs.Drawn.{drawn, inside};
ghost use Rattle.attractor_counters.specs.Counters.{own_of, counts_in};
ghost use Rattle.attractor_look.specs.State.{joined, touched};
ghost use Rattle.attractor_look.specs.InArea.{Joinable, Makes, Touchable};

use area::behind_layer;
use attractor_counters::counters::count_down;
use attractor_drawing::Drawing;
use layer::marked::add;

// v comes in at a distance, and into the next layer.
fn join(drawing: &Drawing, work: &mut [u64], next: usize, v: usize, far: u64)
    requires { Joinable (drawn drawing.now) next work.old v }
    ensures { (first : ℕ → ℕ) → Makes first (drawn drawing.now) next (joined far v) work.old work.new }
{
    let Drawing { s, set, .. } = *drawing;
    let distances = drawing.area().distances();
    sets::insert(&mut work[set..set + s], v);
    work[distances + v] = far;
    add(&mut work[next..behind_layer(next, s)], v);
}

// One look, at an entry v of w; who comes in is so far.
pub fn touch(drawing: &Drawing, work: &mut [u64], next: usize, w: usize, far: u64, v: usize)
    requires { Touchable (drawn drawing.now) next work.old v }
    ensures { let d = drawn drawing.now in
        Makes (counts_in d work.old) d next (touched (inside d work.old) (own_of d) w far v) work.old work.new }
{
    let Drawing {
        owners,
        offsets,
        targets,
        s,
        within,
        set,
        ..
    } = *drawing;
    if !sets::in_difference(&work[within..within + s], &work[set..set + s], v) {
        return;
    }
    if owners[v] == drawing.alpha {
        let entries = drawing.area().entries();
        work[entries + v] = w as u64;
        join(drawing, work, next, v, far);
        return;
    }
    if count_down(offsets, targets, owners.len(), s, work, within, v) != 0 {
        return;
    }
    join(drawing, work, next, v, far);
}
