// The numbers of the form.

// TRP, and the version: five bytes.
pub const LETTERS: u64 = 0x545250;

pub const VERSION: u64 = 1;

pub const VERSION_AT: usize = 3;

pub const HEADER_BYTES: usize = 5;

// A record's first byte.
// As it is: bytes of the form (document 02, §6); read, they are `Complete`.
pub const TICK: u8 = 1;

pub const PACKET: u8 = 2;

// A packet stands behind that byte and its length.
pub const LENGTH_AT: usize = 1;

pub const PACKET_AT: usize = 3;

pub const PACKET_MAX: usize = 1600;

pub const RECORD_MAX: usize = 1603;
