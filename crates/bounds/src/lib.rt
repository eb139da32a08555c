// The bounds of a system and of its list, each named once.
#![tactic(auto)]

// The most rows of a system, and so its most columns.
pub const MOST_ROWS: usize = 256;

// The most bytes of a symbol.
pub const MOST_BYTES: usize = 65535;

// The most operations of a list, and the largest room for one.
pub const MOST_OPS: usize = 1048576;
