// The form of an image. Each number stands here once.

// The letters TWN, and the version that is written and read.
pub const LETTERS: u64 = 0x54574E;

pub const VERSION: u64 = 1;

// Where the version, the settings, the count of peers and the peers begin.
pub const VERSION_AT: usize = 3;

pub const OWN_AT: usize = 5;

pub const PORT_AT: usize = 9;

pub const MTU_AT: usize = 11;

pub const COUNT_AT: usize = 13;

pub const PEERS_AT: usize = 14;

// The bytes of a peer, of the count of bindings and of a binding; and where a binding's fields are.
pub const PEER_BYTES: usize = 4;

pub const COUNT_BYTES: usize = 1;

pub const BINDING_BYTES: usize = 12;

pub const KIND_AT: usize = 1;

pub const NETWORK_AT: usize = 2;

pub const TENANT_AT: usize = 10;
