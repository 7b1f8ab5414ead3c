// Where the search for parts keeps what it knows in the work area, behind the predecessor table: six rows of a word for
// each vertex. A function for each row says where it begins, and one where the last ends; nobody else adds this up.
#![tactic(auto)]

ghost use Rattle.std.specs.Prelude.{◌≡◌, ◌+◌, ◌<◌, ◌^◌};
ghost use Rattle.search_rows.specs.Rows.{marks, order, queue, labels, hits, pairs, behind, sets_behind};

// The rows for n vertices and m edges.
#[derive(Clone, Copy)]
pub struct Rows {
    pub n: usize,
    pub m: usize,
}

impl Rows {
    // The predecessor table ends, and the cursors of the first pass begin.
    pub fn marks(self) -> usize
        requires { marks self.n self.m < 2 ^ 64 }
        ensures { result ≡ marks self.n self.m }
    {
        predecessors::table_end(self.n, self.m)
    }

    // The vertices in the order in which they finish.
    pub fn order(self) -> usize
        requires { order self.n self.m < 2 ^ 64 }
        ensures { result ≡ order self.n self.m }
    {
        next_row(self.marks(), self.n)
    }

    // The stack of the first pass, or the queue of the second.
    pub fn queue(self) -> usize
        requires { queue self.n self.m < 2 ^ 64 }
        ensures { result ≡ queue self.n self.m }
    {
        next_row(self.order(), self.n)
    }

    // The labels, plus 1.
    pub fn labels(self) -> usize
        requires { labels self.n self.m < 2 ^ 64 }
        ensures { result ≡ labels self.n self.m }
    {
        next_row(self.queue(), self.n)
    }

    // The labels whose part has the priority that is asked for.
    pub fn hits(self) -> usize
        requires { hits self.n self.m < 2 ^ 64 }
        ensures { result ≡ hits self.n self.m }
    {
        next_row(self.labels(), self.n)
    }

    // The labels whose part has two vertices.
    pub fn pairs(self) -> usize
        requires { pairs self.n self.m < 2 ^ 64 }
        ensures { result ≡ pairs self.n self.m }
    {
        next_row(self.hits(), self.n)
    }

    // The words behind the last row.
    pub fn behind(self) -> usize
        requires { behind self.n self.m < 2 ^ 64 }
        ensures { result ≡ behind self.n self.m }
    {
        next_row(self.pairs(), self.n)
    }

    // Behind one row more, and past the regions of the attractor: sets that it works on.
    pub fn sets(self) -> usize
        requires { sets_behind self.n self.m < 2 ^ 64 }
        ensures { result ≡ sets_behind self.n self.m }
    {
        next_row(self.behind(), self.n) + 2
    }
}

// What stands behind the row at `row`.
pub fn next_row(row: usize, n: usize) -> usize
    requires { row + n < 2 ^ 64 }
    ensures { result ≡ row + n }
{
    row + n
}
