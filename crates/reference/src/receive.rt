// Receiving: the endpoint opens a packet and delivers a frame; in between, the reference reassembler takes the segment.
ghost use Rattle.std.specs.Prelude.{◌≡◌, ◌≤◌, ◌<◌, length};
ghost use Rattle.reassembly.specs.Receive.{part_of_slice, segment};
ghost use Rattle.reassembly.specs.Take.{seg_of};
ghost use Rattle.endpoint.specs.Config.{Config};
ghost use Rattle.endpoint.specs.Receive.{answers, layers};
ghost use Rattle.reference.specs.Calls.{heard_in, hears_in, left_of, reply_of};
ghost use Rattle.reference.specs.Stages.{HeardAs};

use crate::answer::Refusal;
use crate::number::{MEMORY_BYTES, REBUILT};
use crate::reassembler::Reassembler;
use crate::take::Progress;
use endpoint::answer::{Drop, Place, Received};
use endpoint::receive::{Content, Due, complete_in, untaken};
use endpoint::view::view;

impl Reassembler {
    // Receives a packet. The memory is lent, the same for every receive; a delivered STT frame lies there until the next one.
    pub fn receive(&mut self, packet: &[u8], memory: &mut [u8]) -> Result<Received, Refusal>
        ensures reply_value { result ≡ reply_of (hears_in answers Config layers (left_of self.old memory.old) packet.now).reply }
        ensures memory_after { left_of self.new memory.new
            ≡ (hears_in answers Config layers (left_of self.old memory.old) packet.now).left }
        ensures endpoint_value { self.new.endpoint ≡ self.old.endpoint }
    {
        if memory.len() < MEMORY_BYTES {
            return Err(Drop::MemoryTooSmall.into());
        }
        let arrival = self.endpoint.open(packet, reassembly::number::MEMORY_BYTES);
        let Ok(Content::Segment(due)) = arrival.content else {
            let offer = untaken(arrival);
            return Ok(self.endpoint.deliver(arrival.peer, offer, packet, memory)?);
        };
        self.take_due(arrival.peer, due, packet, memory)
    }

    // Takes the segment that a packet of this peer's brings. A complete frame lies behind the blocks: 28, 29, then 12, 13.
    fn take_due(
        &mut self,
        peer: usize,
        due: Due,
        packet: &[u8],
        memory: &mut [u8],
    ) -> Result<Received, Refusal>
        requires { (peer < 8) × (50688 ≤ length memory.old) }
        ensures { HeardAs (heard_in answers Config layers (left_of self.old memory.old) packet.now
            (segment peer (seg_of due.header (part_of_slice packet.now due.start due.length)))) self.old self.new result memory.new }
    {
        let place = Place {
            start: due.start,
            length: due.length,
            in_memory: false,
        };
        let bytes = view(packet, packet, place);
        match self.peers[peer].take(peer as u8, due.header, bytes, memory)? {
            Progress::Pending => Ok(Received::Pending),
            Progress::Complete => {
                let size = usize::from(due.header.frame_length);
                let offer = complete_in(memory, REBUILT, size);
                Ok(self.endpoint.deliver(peer, offer, packet, memory)?)
            }
        }
    }
}
