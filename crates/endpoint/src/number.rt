// Limits of a configuration (document 01, "Listing and numbers"). Each stands here once, for this crate and the one above.

use reassembly::number::PEERS;
use wire::number::{KIND_NVGRE, KIND_STT, KIND_VXLAN};

// How many bindings may be listed.
pub const BINDINGS: usize = 64;

// The number of peers as a binding's owner has it, in a byte.
pub const OWNERS: u8 = PEERS as u8;

// The kinds of a network as a caller gives them.
pub const VXLAN: u32 = KIND_VXLAN as u32;

pub const NVGRE: u32 = KIND_NVGRE as u32;

pub const STT: u32 = KIND_STT as u32;

// The first byte of an address that is no longer a host's (multicast and beyond), and the weight of an address's first byte.
pub const MULTICAST: u32 = 224;

pub const FIRST_BYTE: u32 = 0x1000000;

// The largest STT port, and the largest number of a tenant.
pub const STT_PORT_MAX: u32 = 65535;

pub const TENANT_MAX: u32 = 65535;

// The MTU's bounds.
pub const MTU_MIN: u32 = 576;

pub const MTU_MAX: u32 = 1600;

// The numbers of a VNI or VSID, which has 24 bits; NVGRE (RFC 7637, 3.4) reserves those below 0x1000, and 0xFFFFFF.
pub const IDS: u64 = 0x1000000;

pub const VSID_MIN: u64 = 0x1000;

pub const VSID_RESERVED: u64 = 0xFFFFFF;
