// UDP (RFC 768), as far as it carries a tunnel.
ghost use Rattle.std.specs.Prelude.{◌≡◌, ◌≤◌, length};
ghost use Rattle.wire.specs.Udp.{udp_sum, udp_of};

use crate::be::be;
use crate::carriage::Tunnel;
use crate::number::{ALL_ONES, PROTOCOL_UDP, UDP_HEADER, UDP_VXLAN_HEADERS, VXLAN_PORT};
use crate::refusal::Refusal;
use crate::sum::sum_behind;

// The sum by which a datagram is judged: all ones where there is no checksum.
#[tactic(auto, using(crate::proofs::Laws::Checks::deciding), unfolding(crate::specs::Udp::udp_sum))]
pub(crate) fn judged(source: u32, destination: u32, s: &[u8]) -> u16
    requires { (8 ≤ length s.now) × (length s.now ≤ 65535) }
    ensures { result ≡ udp_sum source destination s.now }
{
    if be::<2>(s, 6) == 0 {
        return ALL_ONES;
    }
    sum_behind(source, destination, PROTOCOL_UDP, s)
}

// The port tells what the datagram carries. It is asked between the two causes of refusal 9, and the checksum comes last.
#[tactic(auto, using(crate::proofs::Laws::Checks::deciding), unfolding(crate::specs::Udp::udp_of, crate::specs::Udp::udp_checks, crate::specs::Checks::first))]
pub fn read(source: u32, destination: u32, s: &[u8]) -> Result<Tunnel, Refusal>
    ensures { result ≡ udp_of source destination s.now }
{
    if s.len() < UDP_HEADER {
        return Err(Refusal::Short);
    }
    if be::<2>(s, 2) as u16 != VXLAN_PORT {
        return Err(Refusal::Port);
    }
    if be::<2>(s, 4) as usize != s.len() || s.len() < UDP_VXLAN_HEADERS {
        return Err(Refusal::UdpLength);
    }
    if judged(source, destination, s) != ALL_ONES {
        return Err(Refusal::UdpChecksum);
    }
    crate::vxlan::read(&s[UDP_HEADER..])
}
