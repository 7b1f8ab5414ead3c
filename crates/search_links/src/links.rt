// The links that the search follows: a vertex that has an entry keeps the edge to it alone.
ghost use Rattle.std.specs.Prelude.{◌≡◌, ◌&&◌, ◌+◌, ◌<◌, length};
ghost use Rattle.search_links.specs.Graph.{graph_of, keeping, fresh_at, rows_of};

use parity_game::NO_ENTRY;
use search_rows::Rows;

// The tables that a search for parts goes over, the entries, and the highest priority that is let in.
#[derive(Clone, Copy)]
pub struct Graph<'a> {
    pub priorities: &'a [u16],
    pub offsets: &'a [u16],
    pub targets: &'a [u16],
    pub entries: &'a [u16],
    pub p: u16,
}

impl Graph<'_> {
    // Where the search keeps what it knows.
    pub fn rows(&self) -> Rows
        ensures { result ≡ rows_of (graph_of self.now) }
    {
        Rows {
            n: self.priorities.len(),
            m: self.targets.len(),
        }
    }

    // Whether v keeps its edges to w: it has no entry, or w is its entry.
    pub fn keeps(&self, v: usize, w: usize) -> bool
        ensures { result ≡ keeping self.now.entries.now v w }
    {
        match self.entries.get(v) {
            Some(&entry) if entry != NO_ENTRY => w == entry as usize,
            _ => true,
        }
    }

    // Whether x is of priority at most p, and its word in a row of n words from base on is 0.
    pub fn is_fresh(&self, work: &[u64], base: usize, x: usize) -> bool
        requires { (x < length self.now.priorities.now) × (base + x < length work.now) }
        ensures { result ≡ fresh_at self.now.priorities.now self.now.p work.now base x }
    {
        self.priorities[x] <= self.p && work[base + x] == 0
    }

    // Whether x is fresh, and v keeps its edges to w.
    pub fn opens(&self, work: &[u64], base: usize, x: usize, v: usize, w: usize) -> bool
        requires { (x < length self.now.priorities.now) × (base + x < length work.now) }
        ensures { result ≡ (fresh_at self.now.priorities.now self.now.p work.now base x &&
            keeping self.now.entries.now v w) }
    {
        self.is_fresh(work, base, x) && self.keeps(v, w)
    }
}
