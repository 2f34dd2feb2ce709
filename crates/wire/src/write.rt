// The writers (document 01, "Wrapping"): a packet that carries a frame, at the front of a lent output. A frame or a segment whose numbers do not fit, or an
// output with no room, is refused: then nothing is written, and there is no length.
ghost use Rattle.std.specs.Prelude.{◌≡◌, ◌+◌, ◌-◌, ◌≤◌, ◌++◌, length};
ghost use Rattle.wire.specs.Bytes.{laid, wrote, be};
ghost use Rattle.wire.specs.Sum.{pseudo, complement};
ghost use Rattle.wire.specs.Write.{source_port_of, flags_of, fits, segment_fits, segment_bytes, segment_body, packet, vxlan_packet, nvgre_packet};
ghost use Rattle.wire.specs.Write.{segment_packet, Written};

use crate::be::be;
use crate::head;
use crate::inner::hints_of;
use crate::number::{
    ALL_ONES, FRAME_MIN, IPV4_HEADER, NVGRE_OVERHEAD, PAYLOAD_MAX, PROTOCOL_GRE, PROTOCOL_TCP,
    PROTOCOL_UDP, SEGMENT_OVERHEAD, SOURCE_PORT_FIRST, SOURCE_PORTS, STT_HEADER, TCP_ACK,
    TCP_CHECKSUM, TCP_HEADER, TCP_PSH_ACK, UDP_VXLAN_HEADERS, VXLAN_OVERHEAD,
};
use crate::put::put;
use crate::sum::sum_behind;

// The source port, from the first 14 bytes of the frame.
fn source_port(frame: &[u8]) -> u16
    requires { 14 ≤ length frame.now }
    ensures { result ≡ source_port_of frame.now }
{
    let sum = be::<2>(frame, 0)
        + be::<2>(frame, 2)
        + be::<2>(frame, 4)
        + be::<2>(frame, 6)
        + be::<2>(frame, 8)
        + be::<2>(frame, 10)
        + be::<2>(frame, 12);
    (SOURCE_PORT_FIRST + sum % SOURCE_PORTS) as u16
}

// Do a frame of n bytes and the headers in front of it make a packet, and does the output have room for it?
fn frame_fits(headers: usize, n: usize, room: usize) -> bool
    requires { headers ≤ 100 }
    ensures { result ≡ fits headers n room }
{
    if n < FRAME_MIN || PAYLOAD_MAX < n || PAYLOAD_MAX < headers + n {
        return false;
    }
    headers + n <= room
}

// Outer header, the tunnel's N bytes of headers, and the frame, one behind the other: the packet's length.
// As it is: six parameters: what a packet is made of, each once.
fn packet<const N: usize>(
    out: &mut [u8],
    protocol: u8,
    source: u32,
    destination: u32,
    tunnel: &[u8; N],
    frame: &[u8],
) -> usize
    requires { (20 + N + length frame.now ≤ 65535) × (20 + N + length frame.now ≤ length out.old) }
    ensures size_value { result ≡ 20 + N + length frame.now }
    ensures out_after { out.new ≡ wrote out.old (packet protocol source destination (tunnel.now ++ frame.now)) }
{
    let size = IPV4_HEADER + N + frame.len();
    let ip = head::ipv4(protocol, size as u16, source, destination);
    put(out, 0, &ip);
    put(out, IPV4_HEADER, tunnel);
    put(out, IPV4_HEADER + N, frame);
    size
}

// A packet that carries the frame over VXLAN (RFC 7348, 5): its length.
pub fn vxlan(out: &mut [u8], source: u32, destination: u32, vni: u32, frame: &[u8]) -> Option<usize>
    ensures { Written (fits 36 (length frame.now) (length out.old)) (vxlan_packet source destination vni frame.now)
        out.old out.new result }
{
    if !frame_fits(VXLAN_OVERHEAD, frame.len(), out.len()) {
        return None;
    }
    let size = UDP_VXLAN_HEADERS + frame.len();
    let tunnel = head::vxlan(source_port(frame), size as u16, vni);
    Some(packet(out, PROTOCOL_UDP, source, destination, &tunnel, frame))
}

// A packet that carries the frame over NVGRE (RFC 7637, 3.2): its length.
pub fn nvgre(
    out: &mut [u8],
    source: u32,
    destination: u32,
    vsid: u32,
    frame: &[u8],
) -> Option<usize>
    ensures { Written (fits 28 (length frame.now) (length out.old)) (nvgre_packet source destination vsid frame.now)
        out.old out.new result }
{
    if !frame_fits(NVGRE_OVERHEAD, frame.len(), out.len()) {
        return None;
    }
    let tunnel = head::nvgre(vsid);
    Some(packet(out, PROTOCOL_GRE, source, destination, &tunnel, frame))
}

// A segment to be written: from whom to whom, to which port, and the `count` bytes from `offset` on of the STT frame with this context and identifier. `last`:
// its last segment.
#[derive(Clone, Copy)]
pub struct Piece {
    pub source: u32,
    pub destination: u32,
    pub port: u16,
    pub context: u64,
    pub identifier: u32,
    pub offset: usize,
    pub count: usize,
    pub last: bool,
}

// As it is: what a piece and a frame have to do with one another stands in each `requires`: a type for both would borrow the frame, and the definitions have
// the two apart.
impl Piece {
    // Does it lie in the STT frame of an inner frame of n bytes, do their numbers fit, and does the output have room for it?
    fn fits(&self, n: usize, room: usize) -> bool
        ensures { result ≡ segment_fits n self.now.offset self.now.count room }
    {
        if n < FRAME_MIN
            || PAYLOAD_MAX - STT_HEADER < n
            || STT_HEADER + n < self.offset
            || STT_HEADER + n - self.offset < self.count
            || PAYLOAD_MAX < SEGMENT_OVERHEAD + self.count
        {
            return false;
        }
        SEGMENT_OVERHEAD + self.count <= room
    }

    // ACK, and PSH on a frame's last segment (draft-davie-stt-06, 3.2).
    fn flags(&self) -> u8
        ensures { result ≡ flags_of self.now.last }
    {
        if self.last { TCP_PSH_ACK } else { TCP_ACK }
    }

    // Its bytes, straight from the header and the inner frame to behind its own header: the STT frame is never built.
    fn put_bytes(&self, s: &mut [u8], frame: &[u8])
        requires { (self.now.offset + self.now.count ≤ 18 + length frame.now) × (length frame.now ≤ 65517) × (20 + self.now.count ≤ length s.old) }
        ensures { s.new ≡ laid s.old 20 (segment_bytes self.now.context self.now.offset self.now.count frame.now) }
    {
        let hints = hints_of(frame);
        let header = head::stt(hints.flags, hints.l4, self.context);
        let end = self.offset + self.count;
        let a = self.offset.min(STT_HEADER);
        let e = end.min(STT_HEADER);
        put(s, TCP_HEADER, &header[a..e]);
        let rest = &frame[self.offset.saturating_sub(STT_HEADER)..end.saturating_sub(STT_HEADER)];
        put(s, TCP_HEADER + (e - a), rest);
    }

    // Header and bytes, in place of all of s.
    fn put_body(&self, s: &mut [u8], frame: &[u8])
        requires { (14 ≤ length frame.now) × (length frame.now ≤ 65517) × (length s.old ≡ 20 + self.now.count) × (length s.old ≤ 65535)
            × (self.now.offset + self.now.count ≤ 18 + length frame.now) }
        ensures { s.new ≡ segment_body self.now.source self.now.destination self.now.port self.now.context self.now.identifier self.now.offset
            self.now.count self.now.last frame.now }
    {
        let size = STT_HEADER + frame.len();
        let header = head::segment(
            source_port(frame),
            self.port,
            size as u16,
            self.offset as u16,
            self.identifier,
            self.flags(),
        );
        put(s, 0, &header);
        self.put_bytes(s, frame);
        seal(s, self.source, self.destination);
    }

    // Outer header, and behind it the part of the output that the segment fills.
    fn put_packet(&self, out: &mut [u8], frame: &[u8])
        requires { (14 ≤ length frame.now) × (length frame.now ≤ 65517) × (self.now.offset + self.now.count ≤ 18 + length frame.now)
            × (40 + self.now.count ≤ 65535) × (40 + self.now.count ≤ length out.old) }
        ensures { out.new ≡ wrote out.old (segment_packet self.now.source self.now.destination self.now.port self.now.context self.now.identifier
            self.now.offset self.now.count self.now.last frame.now) }
    {
        let end = SEGMENT_OVERHEAD + self.count;
        let ip = head::ipv4(PROTOCOL_TCP, end as u16, self.source, self.destination);
        put(out, 0, &ip);
        self.put_body(&mut out[IPV4_HEADER..end], frame);
    }
}

// The TCP checksum of what stands in s with a field of 0, over the pseudo header too, into the field.
fn seal(s: &mut [u8], source: u32, destination: u32)
    requires { (20 ≤ length s.old) × (length s.old ≤ 65535) }
    ensures { s.new ≡ laid s.old 16 (be 2 (complement (pseudo source destination 6 (length s.old) ++ s.old))) }
{
    let sum = sum_behind(source, destination, PROTOCOL_TCP, &s[..]);
    let field = (ALL_ONES - sum).to_be_bytes();
    put(s, TCP_CHECKSUM, &field);
}

// A packet that carries the piece of the frame's STT frame (draft-davie-stt-06, 3.2 and 3.3): its length.
pub fn segment(out: &mut [u8], piece: &Piece, frame: &[u8]) -> Option<usize>
    ensures { Written (segment_fits (length frame.now) piece.now.offset piece.now.count (length out.old))
        (segment_packet piece.now.source piece.now.destination piece.now.port piece.now.context piece.now.identifier piece.now.offset
        piece.now.count piece.now.last frame.now) out.old out.new result }
{
    if !piece.fits(frame.len(), out.len()) {
        return None;
    }
    piece.put_packet(out, frame);
    Some(SEGMENT_OVERHEAD + piece.count)
}
