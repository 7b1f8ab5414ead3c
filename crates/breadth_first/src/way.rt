// The way that the words show.
ghost use Rattle.breadth_first.specs.Following.{Followable, Followed};

// Writes the vertices of the way from x, one after another from the list's front, up to one whose word is n + 1. Gives
// how many there are.
pub fn follow(n: usize, row: usize, work: &[u64], x: usize, list: &mut [u16]) -> usize
    requires { Followable n row work.now x list.old }
    ensures { Followed n row work.now x list.old list.new result }
{
    let mut v = x;
    let mut k = 0;
    while work[row + v] != n as u64 + 1 {
        list[k] = v as u16;
        k += 1;
        v = work[row + v] as usize - 1;
    }
    list[k] = v as u16;
    k + 1
}
