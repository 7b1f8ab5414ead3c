// The operations on a layer: one member more, the lowest word out.
ghost use Rattle.layer.specs.Layer.{Addable, Added, Poppable, Popped};

// A word of a set, and which one it is.
#[derive(Clone, Copy)]
pub struct Word {
    pub at: usize,
    pub word: u64,
}

// v comes in.
pub fn add(layer: &mut [u64], v: usize)
    requires { Addable v layer.old }
    ensures { Added v layer.old layer.new }
{
    let s = layer.len() - 1;
    layer[v / 64] |= 1u64 << (v % 64);
    layer[s] |= 1u64 << (v / 64);
}

// Takes the lowest word that is not 0 out.
pub fn pop_word(layer: &mut [u64]) -> Word
    requires { Poppable layer.old }
    ensures { Popped result.at result.word layer.old layer.new }
{
    let s = layer.len() - 1;
    let marks = layer[s];
    let at = u64::trailing_zeros(marks) as usize;
    let word = layer[at];
    layer[at] = 0;
    layer[s] = marks & (marks - 1);
    Word { at, word }
}
