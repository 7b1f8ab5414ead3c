// The whole attractor, layer by layer: the set at `set` grows from the target to the attractor in the set at
// `within`. Gives the looks.
ghost use Rattle.std.specs.Prelude.{List, ℕ};
ghost use Rattle.rules.specs.Game.{player_of};
ghost use Rattle.rules.specs.Tables.{Accepted, tables_of};
ghost use Rattle.attractor_word.specs.Attracted.{Attractable, Attracted};

use area::{behind_layer, marks_at};
use attractor_begin::begin_layers;
use attractor_drawing::Drawing;
use attractor_layer::take_layer;

pub fn attract(
    owners: &[u8],
    offsets: &[u16],
    targets: &[u16],
    alpha: u8,
    work: &mut [u64],
    within: usize,
    set: usize,
) -> u64
    requires { Attractable owners.now offsets.now targets.now alpha within set work.old }
    ensures { (priorities : List ℕ) →
        Accepted (tables_of owners.now priorities offsets.now targets.now) →
        Attracted (tables_of owners.now priorities offsets.now targets.now)
        (player_of alpha) within set work.old work.new result }
{
    let s = parity_game::set_words(owners.len());
    let drawing = Drawing {
        owners,
        offsets,
        targets,
        s,
        alpha,
        within,
        set,
    };
    let first = drawing.area().layers();
    begin_layers(work, first, set, s);
    let mut this = first;
    let mut next = behind_layer(first, s);
    let mut far: u64 = 1;
    let mut looks: u64 = 0;
    while work[marks_at(this, s)] != 0 {
        looks += take_layer(&drawing, work, this, next, far);
        let done = this;
        this = next;
        next = done;
        far += 1;
    }
    looks
}
