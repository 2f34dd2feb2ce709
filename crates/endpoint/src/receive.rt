// Receiving: from an outer packet to a tenant's frame (document 01, "The numbered answers"), in three stages. Each takes what the last one gave.
ghost use Rattle.std.specs.Prelude.{◌+◌, ◌^◌, ◌<◌, ◌≡◌, ◌≤◌, length};
ghost use Rattle.wire.specs.Bytes.{Bytes};
ghost use Rattle.reassembly.specs.Receive.{part_of_slice};
ghost use Rattle.endpoint.specs.Answer.{values_of, told_by};
ghost use Rattle.wire.specs.Table.{told};
ghost use Rattle.endpoint.specs.Table.{receive_rows};
ghost use Rattle.endpoint.specs.Demand1.{ReceiveRule};
ghost use Rattle.endpoint.specs.Receive.{broken_at, step_of, receipt_of};
ghost use Rattle.endpoint.specs.Stages.{from_other, content_from, opened_by, offer_at, Lies, offer_of, untaken_of, take_of, delivered_by};

use crate::answer::{Drop, Place, Received, Target};
use crate::config::Endpoint;
use crate::view::{part, view_one};
use reassembly::number::{MEMORY_BYTES, SLOT_BYTES, SLOTS};
use reassembly::slot::Peer;
use reassembly::take::Outcome;
use wire::carriage;
use wire::carriage::Carried;
use wire::ipv4::Ipv4;
use wire::number::{KIND_STT, STT_HEADER};
use wire::refusal::Refusal;
use wire::segment::Segment;

// An inner frame: its tunnel's kind and network, and where it lies.
#[derive(Clone, Copy)]
pub struct InnerFrame {
    pub network: u64,
    pub place: Place,
    pub kind: u8,
}

// A segment that is to be taken: its header, and where its bytes lie in the packet.
#[derive(Clone, Copy)]
pub struct Due {
    pub header: Segment,
    pub start: usize,
    pub length: usize,
}

// What a packet brings.
#[derive(Clone, Copy)]
pub enum Content {
    Frame(InnerFrame),
    Segment(Due),
}

// A packet, opened. One of no listed peer has peer 0, whose record stays.
#[derive(Clone, Copy)]
pub struct Arrival {
    pub peer: usize,
    pub content: Result<Content, Drop>,
}

fn other_sender(d: Drop) -> Arrival
    ensures { result ≡ from_other d }
{
    Arrival {
        peer: 0,
        content: Err(d),
    }
}

// A format is broken. In the packet, the IP payload begins at `start`, behind at most fifteen words; in an STT frame, `start` is 0.
#[tactic(auto, using(wire::proofs::Laws::Refusal::offset_most))]
fn broken(start: usize, r: Refusal) -> Drop
    requires { start ≤ 60 }
    ensures { result ≡ broken_at start r }
{
    let at = r.offset(start as u8);
    Drop::Format(r, at as u8)
}

// What a listed peer's packet brings: 8 to 10, and 25 to 27.
#[tactic(auto, using(wire::proofs::Laws::Bytes::part_is, wire::proofs::Laws::Carriage::tunnel_within, wire::proofs::Laws::Carriage::segment_within), unfolding(crate::specs::Stages::content_from))]
fn unpack(port: u16, h: Ipv4, packet: &[u8]) -> Result<Content, Drop>
    requires { (h.start ≤ h.end) × ((h.end ≤ length packet.now) × (h.start ≤ 60)) }
    ensures { result ≡ content_from port h packet.now }
{
    let payload = &packet[h.start..h.end];
    match carriage::read(h.protocol, h.source, h.destination, port, payload) {
        Err(r) => Err(broken(h.start, r)),
        Ok(Carried::Tunnel(t)) => {
            let at = h.start + t.start;
            Ok(Content::Frame(InnerFrame {
                network: t.network as u64,
                place: Place {
                    start: at,
                    length: h.end - at,
                    in_memory: false,
                },
                kind: t.kind,
            }))
        }
        Ok(Carried::Segment(g)) => {
            let at = h.start + g.start;
            Ok(Content::Segment(Due {
                header: g,
                start: at,
                length: h.end - at,
            }))
        }
    }
}

// A complete STT frame that lies in the memory from `at` on: 28, 29.
#[tactic(auto, using(wire::proofs::Laws::Stt::stt_room), unfolding(crate::specs::Stages::offer_at))]
fn complete(at: usize, frame: &[u8]) -> Result<Option<InnerFrame>, Drop>
    requires { at + length frame.now < 2 ^ 64 }
    ensures { result ≡ offer_at at frame.now }
{
    match wire::stt::read(frame) {
        Err(r) => Err(broken(0, r)),
        Ok(context) => Ok(Some(InnerFrame {
            network: context,
            place: Place {
                start: at + STT_HEADER,
                length: frame.len() - STT_HEADER,
                in_memory: true,
            },
            kind: KIND_STT,
        })),
    }
}

// The same of any part of the memory. One that the memory does not hold is an empty one, which is refused.
pub fn complete_in(memory: &[u8], at: usize, size: usize) -> Result<Option<InnerFrame>, Drop>
    ensures { result ≡ offer_at at (part_of_slice memory.now at size) }
{
    let frame = part(memory, memory, at, size);
    complete(at, frame)
}

// What there is to deliver once a segment is taken, by what taking it gave: nothing while the frame is pending.
#[tactic(auto, using(wire::proofs::Laws::Bytes::part_is), unfolding(crate::specs::Stages::offer_of, crate::specs::Stages::Lies))]
fn settled(
    peer: usize,
    outcome: Outcome,
    size: u16,
    memory: &[u8],
) -> Result<Option<InnerFrame>, Drop>
    requires { Lies peer outcome size memory.now }
    ensures { result ≡ offer_of peer outcome size memory.now }
{
    match outcome {
        Outcome::Rejected(r) => Err(Drop::Segment(r)),
        Outcome::Pending => Ok(None),
        Outcome::NoMemory => Err(Drop::MemoryTooSmall),
        Outcome::Complete(s) => {
            let at = (SLOTS * peer + s) * SLOT_BYTES;
            let end = at + size as usize;
            complete(at, &memory[at..end])
        }
    }
}

// What there is to deliver while nothing is taken: a refusal and a frame pass, and of a segment the frame is pending.
pub fn untaken(arrival: Arrival) -> Result<Option<InnerFrame>, Drop>
    ensures { result ≡ untaken_of arrival.content }
{
    match arrival.content? {
        Content::Frame(f) => Ok(Some(f)),
        Content::Segment(_) => Ok(None),
    }
}

// Takes the segment that a packet brings, with its sender's peer record: 14 to 17, then 28 and 29 where the frame is complete. All else passes.
#[tactic(auto, unfolding(crate::specs::Stages::take_of))]
pub fn take(
    row: &mut Peer,
    arrival: Arrival,
    packet: &[u8],
    memory: &mut [u8],
) -> Result<Option<InnerFrame>, Drop>
    ensures value { result ≡ (take_of row.old arrival packet.now memory.old).offer }
    ensures row_after { row.new ≡ (take_of row.old arrival packet.now memory.old).row }
    ensures memory_after { memory.new ≡ (take_of row.old arrival packet.now memory.old).mem }
{
    match arrival.content? {
        Content::Frame(f) => Ok(Some(f)),
        Content::Segment(due) => {
            let bytes = part(packet, packet, due.start, due.length);
            let outcome = row.take(arrival.peer, due.header, bytes, memory);
            settled(arrival.peer, outcome, due.header.frame_length, memory)
        }
    }
}

impl Endpoint {
    // Opens a packet: checks 2 to 10 in order, and 25 to 27. `room` is the memory's length.
    #[tactic(auto, using(wire::proofs::Laws::Checks::deciding, wire::proofs::Laws::Ipv4::ipv4_bounds, wire::proofs::Laws::Ipv4::ipv4_start), unfolding(crate::specs::Stages::open_of, crate::specs::Config::find_peer, crate::specs::Config::config_of))]
    pub fn open(&self, packet: &[u8], room: usize) -> Arrival
        ensures { result ≡ opened_by self.now packet.now room }
    {
        if room < MEMORY_BYTES {
            return other_sender(Drop::MemoryTooSmall);
        }
        let h = match wire::ipv4::read(packet) {
            Ok(h) => h,
            Err(r) => return other_sender(Drop::Format(r, 0)),
        };
        if h.destination != self.own {
            return other_sender(Drop::NotForUs);
        }
        let Some(peer) = self.find_peer(h.source) else {
            return other_sender(Drop::UnknownPeer);
        };
        Arrival {
            peer,
            content: unpack(self.port, h, packet),
        }
    }

    // Delivers a frame: the lookup of its binding, 12, then the frame's rule, 13. All else is the answer already.
    #[tactic(auto, unfolding(crate::specs::Stages::deliver_of, crate::specs::Receive::inner_from, crate::specs::Config::find_binding, crate::specs::Config::config_of))]
    pub fn deliver<'r>(
        &self,
        peer: usize,
        offer: Result<Option<InnerFrame>, Drop>,
        packet: &'r [u8],
        memory: &'r [u8],
    ) -> Result<Received, Drop>
        ensures { result ≡ delivered_by self.now peer offer packet.now memory.now }
    {
        let Some(f) = offer? else {
            return Ok(Received::Pending);
        };
        let Some(b) = self.find_binding(peer, f.kind, f.network) else {
            return Err(Drop::NoBinding);
        };
        let frame = view_one(packet, memory, f.place);
        if let Err(r) = wire::frame::read(frame) {
            return Err(Drop::Format(r, 0));
        }
        let target = Target {
            tenant: self.tenants[b],
            binding: b as u16,
        };
        Ok(Received::Delivered(target, f.place))
    }

    // Receives a packet. The memory is lent; a delivered STT frame lies there until the next receive. Promised: answer, endpoint and memory are the
    // definition's; number and offset are the table's; and demand 1.
    pub fn receive(&mut self, packet: &[u8], memory: &mut [u8]) -> Result<Received, Drop>
        ensures value { result ≡ (step_of self.old memory.old packet.now).answer }
        ensures endpoint_after { self.new ≡ (receipt_of self.old (step_of self.old memory.old packet.now)).endpoint }
        ensures memory_after { memory.new ≡ (step_of self.old memory.old packet.now).mem }
        ensures answer_value { Bytes packet.now → told_by (values_of result) ≡ told (receive_rows self.old memory.old packet.now) }
        ensures receive_rule { ReceiveRule self.old memory.old packet.now (values_of result) self.new memory.new }
    {
        let arrival = self.open(packet, memory.len());
        let peer = arrival.peer;
        let offer = take(&mut self.peers[peer], arrival, packet, memory);
        self.deliver(peer, offer, packet, memory)
    }
}
