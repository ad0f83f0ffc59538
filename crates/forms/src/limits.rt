// How much a table and a row hold.

// The entries that a table holds at most.
pub const ROOM: usize = 64;

// The cells of a row. A row that is narrower has zeros behind its own.
pub const CELLS: usize = 6;
