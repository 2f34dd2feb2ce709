// Sizes and bounds of the reference reassembler (document 02, §7).
use reassembly::number::{FRAME_BYTES, PEERS, SLOTS};

// How many frames of a peer may be pending: as many as the first reassembler has slots.
pub const FRAMES: usize = SLOTS;

// How many segments of a frame are kept; the next is refused with 32.
pub const SEGMENTS: usize = 64;

// The bytes of a block: those of a frame's segments, end to end.
pub const BLOCK_BYTES: usize = FRAME_BYTES;

// Behind the blocks of all peers, 49,152 bytes: there a complete frame is rebuilt.
pub const REBUILT: usize = PEERS * FRAMES * BLOCK_BYTES;

// The bytes of the blocks and of a rebuilt frame, 50,688: in less memory, nothing is received (its check 2).
pub const MEMORY_BYTES: usize = REBUILT + BLOCK_BYTES;
