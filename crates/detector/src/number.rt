// The limit of a detector, and the numbers of its answers.

// How many entries a detector keeps.
pub const ENTRIES: usize = 128;

// As it is: numbers are what C gets (`Observation`); in Rattle an answer is `Observed`.

// Tenant and address were not listed; now they are, with this peer.
pub const NEW: u8 = 0;

// They are listed with this peer.
pub const KNOWN: u8 = 1;

// They are listed with another peer, the first that showed them.
pub const DUPLICATE: u8 = 2;

// They are not listed, and there is no room.
pub const FULL: u8 = 3;

// No peer.
pub const NONE: u16 = 0xFFFF;
