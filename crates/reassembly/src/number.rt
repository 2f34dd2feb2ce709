// Sizes and bounds of reassembly (document 01, "Reassembly memory" and "The numbered answers"). Each stands here once, for this crate and those above.

// How many peers may be listed, and how many frames of a peer may be pending.
pub const PEERS: usize = 8;

pub const SLOTS: usize = 4;

// The bytes of a slot: 1,536 of a frame, then 192 of its map, which are 1,728.
pub const FRAME_BYTES: usize = 1536;

pub const MAP_BYTES: usize = 192;

pub const SLOT_BYTES: usize = FRAME_BYTES + MAP_BYTES;

// The bytes of the slots of all peers, 55,296: in less memory, nothing is received (check 2).
pub const MEMORY_BYTES: usize = PEERS * SLOTS * SLOT_BYTES;

// An STT frame's bounds (check 14).
pub const STT_FRAME_MIN: u16 = 32;

pub const STT_FRAME_MAX: u16 = 1532;

// The age at which a pending frame is given up, in ticks, and the oldest that it grows.
pub const LIFETIME: u8 = 4;

pub const AGE_MAX: u8 = LIFETIME - 1;
