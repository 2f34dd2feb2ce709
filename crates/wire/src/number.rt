// Assigned numbers and fixed sizes, as the RFCs and document 01 give them.

// IP protocol numbers.
pub const PROTOCOL_TCP: u8 = 6;

pub const PROTOCOL_UDP: u8 = 17;

pub const PROTOCOL_GRE: u8 = 47;

// The UDP port of VXLAN (RFC 7348, 5).
pub const VXLAN_PORT: u16 = 4789;

// VXLAN's flag I (RFC 7348, 5), and its number from the lowest bit.
pub const VXLAN_FLAG: u8 = 0x08;

pub const VXLAN_FLAG_BIT: u8 = 3;

// The TCP flags that we write (RFC 793, 3.1; draft-davie-stt-06, 3.2).
pub const TCP_ACK: u8 = 0x10;

pub const TCP_PSH_ACK: u8 = 0x18;

pub const TIME_TO_LIVE: u8 = 64;

// The first byte of an IPv4 header (RFC 791, 3.1): version 4; version 4 and five words, as we write it; version 4 and fifteen words, the most.
pub const IPV4_VERSION: u8 = 0x40;

pub const IPV4_VERSION_IHL: u8 = 0x45;

pub const IPV4_VERSION_IHL_MAX: u8 = 0x4F;

// The byte of a TCP-shaped header that we write with the data offset in its upper half: five words (RFC 793, 3.1).
pub const TCP_DATA_OFFSET: u8 = 0x50;

// GRE's key bit in its first byte (RFC 2890, 2).
pub const GRE_KEY: u8 = 0x20;

// The kinds of a network (document 01, "Listing and numbers").
// As it is: numbers and no enum: the endpoint's column of them is C's, and its definitions speak of any number there (`binds`).
pub const KIND_VXLAN: u8 = 1;

pub const KIND_NVGRE: u8 = 2;

pub const KIND_STT: u8 = 3;

// Header lengths, without options.
pub const IPV4_HEADER: usize = 20;

pub const UDP_HEADER: usize = 8;

pub const VXLAN_HEADER: usize = 8;

pub const UDP_VXLAN_HEADERS: usize = 16;

pub const GRE_HEADER: usize = 8;

pub const TCP_HEADER: usize = 20;

pub const STT_HEADER: usize = 18;

pub const ETHERNET_HEADER: usize = 14;

// The headers in front of a frame or a segment, all of them.
pub const VXLAN_OVERHEAD: usize = 36;

pub const NVGRE_OVERHEAD: usize = 28;

pub const SEGMENT_OVERHEAD: usize = 40;

// The checksum's place in a TCP header.
pub const TCP_CHECKSUM: usize = 16;

// The protocol type 0x6558 of GRE, transparent Ethernet bridging (RFC 7637, 3.2), in its two bytes.
pub const GRE_TYPE_HIGH: u8 = 0x65;

pub const GRE_TYPE_LOW: u8 = 0x58;

// Types of an Ethernet frame that carries IPv4 (RFC 894) or IPv6 (RFC 2464).
pub const TYPE_IPV4: u16 = 0x0800;

pub const TYPE_IPV6: u16 = 0x86DD;

// Types of a tagged Ethernet frame (IEEE 802.1Q, 802.1ad).
pub const TYPE_VLAN: u16 = 0x8100;

pub const TYPE_SERVICE_VLAN: u16 = 0x88A8;

// An inner frame's bounds.
pub const FRAME_MIN: usize = 14;

pub const FRAME_MAX: usize = 1514;

// A frame's Ethernet header and the shortest IPv4 header (RFC 791, 3.1), or an IPv6 header (RFC 8200, 3), behind which the transport header begins.
pub const FRAME_WITH_IPV4: usize = 34;

pub const FRAME_WITH_IPV6: usize = 54;

// Flags of an STT frame (draft-davie-stt-06, 3.1): number 2, IPv4; number 3, TCP.
pub const HINT_IPV4: u8 = 0x04;

pub const HINT_TCP: u8 = 0x08;

// The longest payload that a 16-bit length field can give.
pub const PAYLOAD_MAX: usize = 65535;

// The source ports of VXLAN and STT (document 01, "Wrapping"): the first one, and how many there are.
pub const SOURCE_PORT_FIRST: u64 = 49152;

pub const SOURCE_PORTS: u64 = 16384;

// A ones' complement sum with its checksum in it (RFC 1071): all ones.
pub const ALL_ONES: u16 = 0xFFFF;
