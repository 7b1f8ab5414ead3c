// One layer: the words of the layer at `this` are popped in rising order and their members taken; whom they draw in
// goes to the layer at `next`. Gives the looks.
ghost use Rattle.attractor_drawing.specs.Drawn.{drawn};
ghost use Rattle.attractor_layer.specs.OneLayer.{Layerable, TookLayer};

use area::{behind_layer, marks_at};
use attractor_drawing::Drawing;
use attractor_word::take_word;
use layer::marked::pop_word;

pub fn take_layer(drawing: &Drawing, work: &mut [u64], this: usize, next: usize, far: u64) -> u64
    requires { Layerable (drawn drawing.now) this next far work.old }
    ensures { TookLayer (drawn drawing.now) this next far work.old result work.new }
{
    let s = drawing.s;
    let mut looks: u64 = 0;
    while work[marks_at(this, s)] != 0 {
        let popped = pop_word(&mut work[this..behind_layer(this, s)]);
        looks += take_word(drawing, work, next, popped.at, popped.word, far);
    }
    looks
}
