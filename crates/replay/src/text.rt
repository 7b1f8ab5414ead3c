// Decimal numbers with one space or line feed after each.
ghost use Rattle.std.specs.Prelude.{◌<◌};

// A number, or a set of vertices as a word, and where the text goes on.
#[derive(Clone, Copy)]
pub struct Read {
    pub value: u64,
    pub next: usize,
}

// The digits from a place on, and the byte after them; only the low 16 bits are kept.
pub fn number(list: &[u8], from: usize) -> Read
    ensures { result.value < 65536 }
{
    let rest = list.get(from..).unwrap_or(&[]);
    let mut low: u16 = 0;
    let mut next = from.max(list.len());
    for (i, &c) in rest.iter().enumerate() {
        if !c.is_ascii_digit() {
            next = from + i + 1;
            break;
        }
        low = low.wrapping_mul(10).wrapping_add((c - b'0') as u16);
    }
    Read {
        value: low as u64,
        next,
    }
}

// Fills a slice with what `of` makes of each number; gives where the text goes on.
fn fill<T: Copy, F: Fn(u64) -> T>(list: &[u8], from: usize, into: &mut [T], of: F) -> usize
    requires { F.IsAlwaysCallable of }
{
    let mut at = from;
    for entry in into.iter_mut() {
        let t = number(list, at);
        *entry = of(t.value);
        at = t.next;
    }
    at
}

// The four tables of a game; gives where the text goes on.
pub fn tables(
    list: &[u8],
    from: usize,
    owners: &mut [u8],
    priorities: &mut [u16],
    offsets: &mut [u16],
    targets: &mut [u16],
) -> usize {
    let at = fill(list, from, owners, |t| (t % 256) as u8);
    let at = fill(list, at, priorities, |t| (t % 65536) as u16);
    let at = fill(list, at, offsets, |t| (t % 65536) as u16);
    fill(list, at, targets, |t| (t % 65536) as u16)
}

// The vertices below n that have the mark.
pub fn set(list: &[u8], from: usize, n: usize, mark: u64) -> Read {
    let mut word: u64 = 0;
    let mut at = from;
    for v in 0..n {
        let t = number(list, at);
        if t.value == mark && v < 64 {
            word |= 1u64 << v;
        }
        at = t.next;
    }
    Read {
        value: word,
        next: at,
    }
}

// Whether a place has the dash that stands for no set.
pub fn is_dash(list: &[u8], at: usize) -> bool {
    at < list.len() && list[at] == b'-'
}

// Where the next line begins.
pub fn line_end(list: &[u8], from: usize) -> usize {
    let rest = list.get(from..).unwrap_or(&[]);
    match rest.iter().position(|&c| c == b'\n') {
        Some(i) => from + i + 1,
        None => from.max(list.len()),
    }
}

// How many lines there are.
pub fn lines(list: &[u8]) -> u64 {
    list.iter().filter(|&&c| c == b'\n').count() as u64
}
