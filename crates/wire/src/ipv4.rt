// IPv4 (RFC 791, 3.1).
ghost use Rattle.std.specs.Prelude.{◌≡◌};
ghost use Rattle.wire.specs.Ipv4.{ipv4_of};

use crate::be::be;
use crate::number::{ALL_ONES, IPV4_HEADER, IPV4_VERSION, IPV4_VERSION_IHL, IPV4_VERSION_IHL_MAX};
use crate::refusal::Refusal;
use crate::sum::sum;

// Who sent the packet to whom, what it carries, and where the payload lies: from `start` up to `end`.
#[derive(Clone, Copy)]
pub struct Ipv4 {
    pub start: usize,
    pub end: usize,
    pub source: u32,
    pub destination: u32,
    pub protocol: u8,
}

#[tactic(auto, using(crate::proofs::Laws::Checks::deciding, crate::proofs::Laws::Bytes::be_one), unfolding(crate::specs::Ipv4::ipv4_of, crate::specs::Ipv4::ipv4_checks, crate::specs::Ipv4::ipv4_at, crate::specs::Checks::first,))]
pub fn read(s: &[u8]) -> Result<Ipv4, Refusal>
    ensures { result ≡ ipv4_of s.now }
{
    if s.len() < IPV4_HEADER {
        return Err(Refusal::Truncated);
    }
    // Version and header length by ranges of the first byte: where both are dropped alike, the compiler makes one test of them.
    let first = s[0];
    if first < IPV4_VERSION || IPV4_VERSION_IHL_MAX < first {
        return Err(Refusal::Version);
    }
    if first < IPV4_VERSION_IHL {
        return Err(Refusal::HeaderLength);
    }
    let start = 4 * (first % 16) as usize;
    let end = be::<2>(s, 2) as usize;
    if end < start || s.len() < end {
        return Err(Refusal::TotalLength);
    }
    if sum(0, &s[..start]) != ALL_ONES {
        return Err(Refusal::HeaderChecksum);
    }
    if be::<2>(s, 6) % 0x4000 != 0 {
        return Err(Refusal::Fragment);
    }
    Ok(Ipv4 {
        start: start,
        end: end,
        source: be::<4>(s, 12) as u32,
        destination: be::<4>(s, 16) as u32,
        protocol: s[9],
    })
}
