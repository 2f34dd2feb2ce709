// The headers that we write (document 01, "Wrapping"), each an array of its bytes.
ghost use Rattle.std.specs.Prelude.{◌≡◌, []};
ghost use Rattle.wire.specs.Udp.{udp};
ghost use Rattle.wire.specs.Vxlan.{vxlan};
ghost use Rattle.wire.specs.Nvgre.{gre};
ghost use Rattle.wire.specs.Stt.{stt};
ghost use Rattle.wire.specs.Write.{ipv4_with, ipv4_head, tcp_with};

use crate::number::{
    GRE_KEY, GRE_TYPE_HIGH, GRE_TYPE_LOW, IPV4_VERSION_IHL, TCP_DATA_OFFSET, TIME_TO_LIVE,
    VXLAN_FLAG,
};
use crate::sum::sum;

// IPv4 (RFC 791, 3.1): no options, don't fragment (0x4000).
fn ipv4_with(protocol: u8, size: u16, source: u32, destination: u32, checksum: u16) -> [u8; 20]
    ensures { result ≡ ipv4_with protocol size source destination checksum }
{
    let size = size.to_be_bytes();
    let checksum = checksum.to_be_bytes();
    let source = source.to_be_bytes();
    let destination = destination.to_be_bytes();
    [
        IPV4_VERSION_IHL,
        0,
        size[0],
        size[1],
        0,
        0,
        0x40,
        0,
        TIME_TO_LIVE,
        protocol,
        checksum[0],
        checksum[1],
        source[0],
        source[1],
        source[2],
        source[3],
        destination[0],
        destination[1],
        destination[2],
        destination[3],
    ]
}

// The same with its checksum.
pub(crate) fn ipv4(protocol: u8, size: u16, source: u32, destination: u32) -> [u8; 20]
    ensures { result ≡ ipv4_head protocol size source destination }
{
    let blank = ipv4_with(protocol, size, source, destination, 0);
    let checksum = 0xFFFF - sum(0, &blank);
    ipv4_with(protocol, size, source, destination, checksum)
}

// UDP (RFC 768) to VXLAN's port 4789 (0x12B5) with no checksum, and VXLAN (RFC 7348, 5) with the flag I alone.
pub(crate) fn vxlan(port: u16, size: u16, vni: u32) -> [u8; 16]
    ensures { result ≡ udp port 4789 size 0 (vxlan 8 0 vni 0 []) }
{
    let port = port.to_be_bytes();
    let size = size.to_be_bytes();
    let vni = vni.to_be_bytes();
    [
        port[0], port[1], 0x12, 0xB5, size[0], size[1], 0, 0, VXLAN_FLAG, 0, 0, 0, vni[1], vni[2],
        vni[3], 0,
    ]
}

// GRE with the network's key (RFC 7637, 3.2).
pub(crate) fn nvgre(vsid: u32) -> [u8; 8]
    ensures { result ≡ gre 0 0 vsid 0 [] }
{
    let vsid = vsid.to_be_bytes();
    [
        GRE_KEY,
        0,
        GRE_TYPE_HIGH,
        GRE_TYPE_LOW,
        vsid[1],
        vsid[2],
        vsid[3],
        0,
    ]
}

// An STT frame's header (draft-davie-stt-06, 3.1): every field but the hints and the Context ID is 0.
pub(crate) fn stt(flags: u8, l4: u8, context: u64) -> [u8; 18]
    ensures { result ≡ stt 0 flags l4 0 0 0 context 0 [] }
{
    let context_id = context.to_be_bytes();
    [
        0, // version
        flags,
        l4,
        0, // reserved
        0, // maximum segment size
        0,
        0, // PCP, V, VLAN
        0,
        context_id[0],
        context_id[1],
        context_id[2],
        context_id[3],
        context_id[4],
        context_id[5],
        context_id[6],
        context_id[7],
        0,
        0,
    ]
}

// The TCP-shaped header of a segment (draft-davie-stt-06, 3.2): its checksum field is still 0.
// As it is: six parameters: the header's fields, each once.
pub(crate) fn segment(
    from: u16,
    to: u16,
    size: u16,
    offset: u16,
    identifier: u32,
    flags: u8,
) -> [u8; 20]
    ensures { result ≡ tcp_with from to size offset identifier flags 0 }
{
    let from = from.to_be_bytes();
    let to = to.to_be_bytes();
    let size = size.to_be_bytes();
    let offset = offset.to_be_bytes();
    let identifier = identifier.to_be_bytes();
    [
        from[0],
        from[1],
        to[0],
        to[1],
        size[0],
        size[1],
        offset[0],
        offset[1],
        identifier[0],
        identifier[1],
        identifier[2],
        identifier[3],
        TCP_DATA_OFFSET,
        flags,
        0,
        0,
        0,
        0,
        0,
        0,
    ]
}
