// The layers at first: the target is the one that is taken first, none is found yet, and no vertex was met. Those met
// stand behind the layers.
ghost use Rattle.attractor_begin.specs.LayersBegin.{LayersBeginnable, LayersBegun};

use area::{behind_layer, marks_at};

pub fn begin_layers(work: &mut [u64], first: usize, set: usize, s: usize)
    requires { LayersBeginnable first set s work.old }
    ensures { LayersBegun first set s work.old work.new }
{
    let second = behind_layer(first, s);
    let met = behind_layer(second, s);
    let mut marks: u64 = 0;
    for i in 0..s {
        let word = work[set + i];
        work[first + i] = word;
        work[second + i] = 0;
        work[met + i] = 0;
        if word != 0 {
            marks |= 1u64 << i;
        }
    }
    work[marks_at(first, s)] = marks;
    work[marks_at(second, s)] = 0;
}
