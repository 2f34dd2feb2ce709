// Two endpoints, and the packets from one to the other.
ghost use Rattle.std.specs.Prelude.{◌<◌};

use crate::frame::Frame;
use crate::tally::Tally;
use endpoint::answer::{Packet, Received, WrapRefusal};
use endpoint::config::Endpoint;
use endpoint::number::{MTU_MAX, NVGRE, STT, VXLAN};
use endpoint::view::view;

const STT_PORT: u32 = 7471;

// The two endpoints, 10.0.0.1 and 10.0.0.2.
const SENDER: u32 = 0x0a000001;

const RECEIVER: u32 = 0x0a000002;

// The bytes of the largest packet.
pub(crate) const PACKET_MAX: usize = MTU_MAX as usize;

// The segments of the largest frame at the smallest MTU.
const SEGMENTS_MAX: usize = 3;

// An endpoint at `own` with one peer, whose networks VXLAN 22, NVGRE 4,096 and STT 77 are bindings 0, 1 and 2.
fn set_up(own: u32, peer: u32, mtu: u32) -> Endpoint {
    let mut endpoint = Endpoint::start(own, STT_PORT, mtu).endpoint;
    let _ = endpoint.add_peer(peer);
    for (kind, network, tenant) in [(VXLAN, 22, 7), (NVGRE, 4096, 8), (STT, 77, 9)] {
        let _ = endpoint.add_binding(0, kind, network, tenant);
    }
    endpoint
}

// Segment i of the order: from `size` on, around, forwards for an even size and backwards for an odd one.
fn turned(i: u32, size: u16, count: u32) -> u32
    requires { i < count }
{
    let k = i.wrapping_add(u32::from(size)) % count;
    if size % 2 == 0 { k } else { count - 1 - k }
}

// A sender and a receiver. The receiver's reassembly memory, and room for a packet between them, are lent.
#[derive(Drop)]
pub(crate) struct Link {
    sender: Endpoint,
    receiver: Endpoint,
}

impl Link {
    pub(crate) fn new(mtu: u32) -> Link {
        Link {
            sender: set_up(SENDER, RECEIVER, mtu),
            receiver: set_up(RECEIVER, SENDER, mtu),
        }
    }

    // Puts a segment of a frame, under an identifier of the frame's size, into the output.
    fn wrap(&self, frame: &Frame, segment: u32, output: &mut [u8]) -> Result<Packet, WrapRefusal> {
        let binding = u32::from(frame.binding);
        let identifier = u32::from(frame.size);
        self.sender
            .wrap(binding, frame.bytes(), segment, identifier, output)
    }

    // Wraps a segment and has it received. A frame that is delivered is held to the one that was wrapped.
    fn pass(
        &mut self,
        frame: &Frame,
        segment: u32,
        tally: &mut Tally,
        memory: &mut [u8],
        output: &mut [u8],
    ) {
        let Ok(Packet { length, .. }) = self.wrap(frame, segment, output) else {
            return tally.count_refused();
        };
        let Some(packet) = output.get(..length) else {
            return;
        };
        tally.count_packet(packet);
        let Ok(Received::Delivered(_, place)) = self.receiver.receive(packet, memory) else {
            return;
        };
        if view(packet, memory, place) == frame.bytes() {
            tally.count_equal();
        }
    }

    // Carries a frame over, its segments in the order that `turned` gives. One that is refused is tried once.
    pub(crate) fn carry(
        &mut self,
        frame: &Frame,
        tally: &mut Tally,
        memory: &mut [u8],
        output: &mut [u8],
    ) {
        let count = match self.wrap(frame, 0, output) {
            Ok(packet) => packet.segments.min(SEGMENTS_MAX) as u32,
            Err(_) => 1,
        };
        for i in 0..count {
            let segment = turned(i, frame.size, count);
            self.pass(frame, segment, tally, memory, output);
        }
    }
}
