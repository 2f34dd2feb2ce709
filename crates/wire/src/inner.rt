// What an inner frame carries (document 02, §5), in two parts: an IP header that lies whole in it, and behind that TCP or UDP, of which the hints of an STT
// frame tell (draft-davie-stt-06, 3.1). The type is asked before the header's length: a wrap, which knows that its frame has 14 bytes, makes no test for that.
ghost use Rattle.std.specs.Prelude.{◌≡◌, ◌≤◌, length};
ghost use Rattle.wire.specs.Inner.{carries_ipv4, carries_ipv6, transport_by, over_ipv4, transport_of, carries_transport, hints_of};

use crate::be::be;
use crate::number::{
    ETHERNET_HEADER, FRAME_MIN, FRAME_WITH_IPV4, FRAME_WITH_IPV6, HINT_IPV4, HINT_TCP,
    IPV4_VERSION_IHL, IPV4_VERSION_IHL_MAX, PROTOCOL_TCP, PROTOCOL_UDP, TYPE_IPV4, TYPE_IPV6,
};

// The flags of an STT frame that tell of the inner frame, and the L4 offset: where in the inner frame the header of TCP or UDP begins.
#[derive(Clone, Copy)]
pub struct Hints {
    pub flags: u8,
    pub l4: u8,
}

// The first part, IPv4 (RFC 791, 3.1): version 4, a header of five words or more, all of it inside the frame.
#[tactic(auto, using(crate::proofs::Laws::Checks::deciding, crate::proofs::Laws::Bytes::be_one), unfolding(crate::specs::Inner::carries_ipv4))]
pub fn carries_ipv4(frame: &[u8]) -> bool
    ensures { result ≡ carries_ipv4 frame.now }
{
    if frame.len() < FRAME_MIN
        || be::<2>(frame, 12) as u16 != TYPE_IPV4
        || frame.len() < FRAME_WITH_IPV4
    {
        return false;
    }
    let first = frame[ETHERNET_HEADER];
    IPV4_VERSION_IHL <= first
        && first <= IPV4_VERSION_IHL_MAX
        && ETHERNET_HEADER + 4 * (first % 16) as usize <= frame.len()
}

// IPv6 (RFC 8200, 3): version 6, its 40 bytes inside the frame.
#[tactic(auto, using(crate::proofs::Laws::Checks::deciding, crate::proofs::Laws::Bytes::be_one), unfolding(crate::specs::Inner::carries_ipv6))]
pub fn carries_ipv6(frame: &[u8]) -> bool
    ensures { result ≡ carries_ipv6 frame.now }
{
    frame.len() >= FRAME_MIN
        && be::<2>(frame, 12) as u16 == TYPE_IPV6
        && frame.len() >= FRAME_WITH_IPV6
        && frame[ETHERNET_HEADER] / 16 == 6
}

// What an IP header's protocol number says, where its version has these flags and it ends at `l4`.
#[tactic(auto, using(crate::proofs::Laws::Checks::deciding, crate::proofs::Laws::Bytes::be_one), unfolding(crate::specs::Inner::transport_by))]
fn by_protocol(protocol: u8, flags: u8, l4: u8) -> Option<Hints>
    requires { flags ≤ 4 }
    ensures { result ≡ transport_by protocol flags l4 }
{
    if protocol == PROTOCOL_TCP {
        return Some(Hints {
            flags: flags + HINT_TCP,
            l4: l4,
        });
    }
    if protocol == PROTOCOL_UDP {
        return Some(Hints {
            flags: flags,
            l4: l4,
        });
    }
    None
}

// Behind an IPv4 header. A later fragment has no transport header; of a first one, more-fragments may be set. The fragment offset is asked byte by byte, which
// takes fewer instructions than its word.
#[tactic(auto, using(crate::proofs::Laws::Checks::deciding, crate::proofs::Laws::Bytes::be_one, crate::proofs::Laws::Inner::fragment_offset), unfolding(crate::specs::Inner::over_ipv4))]
fn over_ipv4(frame: &[u8]) -> Option<Hints>
    requires { 34 ≤ length frame.now }
    ensures { result ≡ over_ipv4 frame.now }
{
    let high = frame[20];
    let low = frame[21];
    if high % 32 != 0 || low != 0 {
        return None;
    }
    let size = 4 * (frame[ETHERNET_HEADER] % 16);
    by_protocol(frame[23], HINT_IPV4, ETHERNET_HEADER as u8 + size)
}

// The second part: the TCP or UDP header that the frame carries behind its IP header. UDP over IPv6 is found like the others, although its flags are 0. An IPv6
// extension header is no transport header.
#[tactic(auto, using(crate::proofs::Laws::Bytes::be_one, crate::proofs::Laws::Inner::ipv4_room, crate::proofs::Laws::Inner::ipv6_room), unfolding(crate::specs::Inner::transport_of))]
pub fn find_transport(frame: &[u8]) -> Option<Hints>
    ensures { result ≡ transport_of frame.now }
{
    if carries_ipv4(frame) {
        return over_ipv4(frame);
    }
    if carries_ipv6(frame) {
        return by_protocol(frame[20], 0, FRAME_WITH_IPV6 as u8);
    }
    None
}

// The same as a test, for the reader of STT frames, which needs no hints.
#[tactic(auto, using(crate::proofs::Laws::Inner::tested))]
pub fn carries_transport(frame: &[u8]) -> bool
    ensures { result ≡ carries_transport frame.now }
{
    find_transport(frame).is_some()
}

// The hints that are written: all 0 where no transport header is found.
#[tactic(auto, using(crate::proofs::Laws::Checks::deciding, crate::proofs::Laws::Bytes::be_one), unfolding(crate::specs::Inner::hints_of))]
pub fn hints_of(frame: &[u8]) -> Hints
    ensures { result ≡ hints_of frame.now }
{
    find_transport(frame).unwrap_or(Hints { flags: 0, l4: 0 })
}
