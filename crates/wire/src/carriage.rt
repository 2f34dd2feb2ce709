// What an IP payload carries: a VXLAN or NVGRE tunnel's frame, or a segment of an STT frame.
ghost use Rattle.std.specs.Prelude.{◌≡◌};
ghost use Rattle.wire.specs.Carriage.{carriage_of};

use crate::number::{PROTOCOL_GRE, PROTOCOL_TCP, PROTOCOL_UDP};
use crate::refusal::Refusal;
use crate::segment::Segment;

// The network, by the number of its kind, and where in the IP payload the inner frame starts.
#[derive(Clone, Copy)]
pub struct Tunnel {
    pub start: usize,
    pub network: u32,
    pub kind: u8,
}

#[derive(Clone, Copy)]
pub enum Carried {
    Tunnel(Tunnel),
    Segment(Segment),
}

// The reader of an IP payload, by its protocol; `port` is the one on which STT is expected.
#[tactic(auto, using(crate::proofs::Laws::Checks::deciding), unfolding(crate::specs::Carriage::carriage_of))]
pub fn read(
    protocol: u8,
    source: u32,
    destination: u32,
    port: u16,
    s: &[u8],
) -> Result<Carried, Refusal>
    ensures { result ≡ carriage_of protocol source destination port s.now }
{
    if protocol == PROTOCOL_UDP {
        return Ok(Carried::Tunnel(crate::udp::read(source, destination, s)?));
    }
    if protocol == PROTOCOL_GRE {
        return Ok(Carried::Tunnel(crate::nvgre::read(s)?));
    }
    if protocol == PROTOCOL_TCP {
        return Ok(Carried::Segment(crate::segment::read(source, destination, port, s)?));
    }
    Err(Refusal::Protocol)
}
