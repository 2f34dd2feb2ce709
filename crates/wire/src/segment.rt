// A segment of an STT frame (draft-davie-stt-06, 3.2): a TCP-shaped header and some bytes of the frame.
ghost use Rattle.std.specs.Prelude.{◌≡◌};
ghost use Rattle.wire.specs.Segment.{segment_of};

use crate::be::be;
use crate::number::{ALL_ONES, PAYLOAD_MAX, PROTOCOL_TCP, TCP_HEADER};
use crate::refusal::Refusal;
use crate::sum::sum_behind;

// The frame's identifier and length, the offset of this segment in it, and where in the IP payload the segment's bytes start.
#[derive(Clone, Copy)]
pub struct Segment {
    pub start: usize,
    pub identifier: u32,
    pub frame_length: u16,
    pub offset: u16,
}

// The port is asked between the causes of refusal 9, and the checksum comes last. A payload that the pseudo header's 16-bit length cannot
// tell is no segment; no IPv4 packet carries one.
#[tactic(auto, using(crate::proofs::Laws::Checks::deciding, crate::proofs::Laws::Bytes::be_one), unfolding(crate::specs::Segment::segment_of, crate::specs::Segment::segment_checks, crate::specs::Segment::segment_at, crate::specs::Checks::first,))]
pub fn read(source: u32, destination: u32, port: u16, s: &[u8]) -> Result<Segment, Refusal>
    ensures { result ≡ segment_of source destination port s.now }
{
    if s.len() < TCP_HEADER {
        return Err(Refusal::Short);
    }
    if be::<2>(s, 2) as u16 != port {
        return Err(Refusal::Port);
    }
    if PAYLOAD_MAX < s.len() {
        return Err(Refusal::TcpLength);
    }
    let words = (s[12] / 16) as usize;
    let start = 4 * words;
    if words < 5 || s.len() < start {
        return Err(Refusal::DataOffset);
    }
    if sum_behind(source, destination, PROTOCOL_TCP, s) != ALL_ONES {
        return Err(Refusal::TcpChecksum);
    }
    Ok(Segment {
        start: start,
        identifier: be::<4>(s, 8) as u32,
        frame_length: be::<2>(s, 4) as u16,
        offset: be::<2>(s, 6) as u16,
    })
}
