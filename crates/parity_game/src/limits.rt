// The limits of document 01, and the numbers that stand for none.
pub const MOST_VERTICES: usize = 4096;

pub const MOST_EDGES: usize = 16384;

// As a table of priorities has it.
pub const HIGHEST_PRIORITY: u16 = 255;

// How many priorities there are, 0 among them.
pub const PRIORITIES: usize = 256;

// No entry of a strategy.
pub const NO_ENTRY: u16 = 65535;

// No distance: the vertex is not in the attractor.
pub const NO_DISTANCE: u16 = 65535;
