// One word of a layer: the members of a word that was popped are taken in rising order. Gives the looks.
ghost use Rattle.attractor_drawing.specs.Drawn.{drawn};
ghost use Rattle.attractor_word.specs.OneWord.{Wordable, TookWord};

use attractor_drawing::Drawing;
use attractor_step::step::take;

pub fn take_word(
    drawing: &Drawing,
    work: &mut [u64],
    next: usize,
    at: usize,
    word: u64,
    far: u64,
) -> u64
    requires { Wordable (drawn drawing.now) next at word far work.old }
    ensures { TookWord (drawn drawing.now) next at word far work.old 0 result work.new }
{
    let mut looks: u64 = 0;
    let mut rest = word;
    while rest != 0 {
        let w = 64 * at + u64::trailing_zeros(rest) as usize;
        rest &= rest - 1;
        looks += work[w + 1] - work[w];
        take(drawing, work, next, w, far);
    }
    looks
}
