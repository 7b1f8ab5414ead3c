// The one work area: where things stand in it, what a part that was lent and comes back makes of it, sets that
// stand at a base, and the walk over the members of such a set. A function for each region says where it begins;
// nobody else adds this up.
#![tactic(auto)]

ghost use Rattle.std.specs.Prelude.{◌≡◌, ◌+◌, ◌<◌, ◌^◌};
ghost use Rattle.rules.specs.Tables.{words};
ghost use Rattle.area.specs.Area.{counters, distances, entries, layers, met_at, free};

// No entry, as a word among the entries.
pub const NO_ENTRY: u64 = 65535;

// The regions for n vertices and m edges, where a set has s words.
#[derive(Clone, Copy)]
pub struct Area {
    pub n: usize,
    pub m: usize,
    pub s: usize,
}

impl Area {
    // The predecessor table ends, and the counters begin.
    pub fn counters(self) -> usize
        requires { counters self.n self.m < 2 ^ 64 }
        ensures { result ≡ counters self.n self.m }
    {
        predecessors::table_end(self.n, self.m)
    }

    pub fn distances(self) -> usize
        requires { distances self.n self.m < 2 ^ 64 }
        ensures { result ≡ distances self.n self.m }
    {
        self.counters() + self.n
    }

    pub fn entries(self) -> usize
        requires { entries self.n self.m < 2 ^ 64 }
        ensures { result ≡ entries self.n self.m }
    {
        self.distances() + self.n
    }

    // The attractor's two layers, each a set and one word more.
    pub fn layers(self) -> usize
        requires { layers self.n self.m < 2 ^ 64 }
        ensures { result ≡ layers self.n self.m }
    {
        self.entries() + self.n
    }

    // The vertices whose counter was made.
    pub fn met(self) -> usize
        requires { (self.s ≡ words self.n) × (met_at self.n self.m < 2 ^ 64) }
        ensures { result ≡ met_at self.n self.m }
    {
        behind_layer(behind_layer(self.layers(), self.s), self.s)
    }

    // The words behind, where sets may stand, and whatever a solver keeps.
    pub fn free(self) -> usize
        requires { (self.s ≡ words self.n) × (free self.n self.m < 2 ^ 64) }
        ensures { result ≡ free self.n self.m }
    {
        next_set(self.met(), self.s)
    }
}

// What stands behind the set at `base`: the next set, where sets stand one behind another.
pub fn next_set(base: usize, s: usize) -> usize
    requires { base + s < 2 ^ 64 }
    ensures { result ≡ base + s }
{
    base + s
}

// The word of the layer at `base` that says which of its words are not 0.
pub fn marks_at(base: usize, s: usize) -> usize
    requires { base + s < 2 ^ 64 }
    ensures { result ≡ base + s }
{
    base + s
}

// What stands behind the layer at `base`.
pub fn behind_layer(base: usize, s: usize) -> usize
    requires { base + s + 1 < 2 ^ 64 }
    ensures { result ≡ base + s + 1 }
{
    marks_at(base, s) + 1
}
