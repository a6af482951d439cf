// The sizes of the directory and of the data array.

// The sets, each with its LRU number.
pub const SETS: usize = 128;

// The ways of a set.
pub const WAYS: usize = 4;

// The lines, each with its tag and valid mark.
pub const LINES: usize = SETS * WAYS;

// The bytes of the data array: sixteen for each line.
pub const DATA_SIZE: usize = LINES * 16;
