// What the calls answer. `values_of` and its like in specs/Answer.antt give document 01's number and values for each case.
use reassembly::take::Rejection;
use wire::refusal::Refusal;

// Where a frame lies: a part of the packet, or of the reassembly memory.
// As it is: a flag and no enum: a struct of C's, whose fields, order and layout stay.
#[repr(C)]
#[derive(Clone, Copy, PartialEq, Eq)]
pub struct Place {
    pub start: usize,
    pub length: usize,
    pub in_memory: bool,
}

// The tenant (document 01: bench) and the binding to whose network a frame belongs.
#[repr(C)]
#[derive(Clone, Copy)]
pub struct Target {
    pub tenant: u16,
    pub binding: u16,
}

// Why a packet is dropped.
#[derive(Clone, Copy)]
pub enum Drop {
    // 2: the reassembly memory has under 55,296 bytes
    MemoryTooSmall,
    // 3 to 5, 8 to 10, 13, 25 to 29: it breaks a format; and the offset of the first offending byte, 0 where the answer names none
    Format(Refusal, u8),
    // 6: it is not for us
    NotForUs,
    // 7: no listed peer sent it
    UnknownPeer,
    // 12: no binding has its network
    NoBinding,
    // 14 to 17: its segment is not taken
    Segment(Rejection),
}

// What comes of a packet that is not dropped: a frame, or a segment of one that is not complete yet.
#[derive(Clone, Copy)]
pub enum Received {
    Delivered(Target, Place),
    Pending,
}

// Why the configuration is not changed: 18, 19, 20.
#[derive(Clone, Copy)]
pub enum ConfigRefusal {
    OutOfRange,
    AlreadyListed,
    Full,
}

// Why nothing is written.
#[derive(Clone, Copy)]
pub enum WrapRefusal {
    // 23: no such binding
    NoBinding,
    // 13: the inner frame breaks its rule
    BadFrame,
    // 22: the packet would exceed the MTU
    ExceedsMtu,
    // 23: no such segment number
    NoSegment,
    // 21: the output is shorter than the packet
    OutputTooShort,
}

// The length of the packet that was written, and how many segments its frame has.
#[repr(C)]
#[derive(Clone, Copy)]
pub struct Packet {
    pub length: usize,
    pub segments: usize,
}
