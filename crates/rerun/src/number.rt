// Sizes. A record has at least one byte and a line at most 64, so an output of 64 times a piece has room for the lines that end in it.
pub(crate) const PIECE: usize = 32768;

pub(crate) const OUT: usize = 2097152;

// An image has at most 815 bytes: of a longer file these are enough to refuse it.
pub(crate) const SETTINGS: usize = 1024;

// The system takes no longer path.
pub(crate) const PATH: usize = 4096;

// More pieces than any file has; and the records in so many stay below 2^64.
pub(crate) const PIECES: u64 = 0x0001000000000000;
