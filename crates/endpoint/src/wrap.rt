// Wrapping (document 01, "Wrapping"): a tenant's frame goes out on a binding, as one packet or one segment a call.
ghost use Rattle.std.specs.Prelude.{◌≡◌, ◌+◌, ◌-◌, ◌*◌, ◌<◌, ◌≤◌, length};
ghost use Rattle.endpoint.specs.Answer.{wrap_values_of};
ghost use Rattle.endpoint.specs.Reached.{Reached};
ghost use Rattle.wire.specs.Table.{numbered};
ghost use Rattle.endpoint.specs.Table.{wrap_rows};
ghost use Rattle.endpoint.specs.Demand1.{WrapRule};
ghost use Rattle.endpoint.specs.Wrap.{segments_of, exceeds, wrap_of, packet_on, send_of, route_of, Put, piece_of};

use crate::answer::{Packet, WrapRefusal};
use crate::config::Endpoint;
use crate::number::OWNERS;
use wire::number::{
    KIND_NVGRE, KIND_VXLAN, NVGRE_OVERHEAD, SEGMENT_OVERHEAD, STT_HEADER, VXLAN_OVERHEAD,
};
use wire::write;
use wire::write::Piece;

// The way out on a binding: its kind and network, from whom and to whom, the STT port, and the MTU.
#[derive(Clone, Copy)]
pub(crate) struct Route {
    pub network: u64,
    pub own: u32,
    pub peer: u32,
    pub port: u16,
    pub mtu: u16,
    pub kind: u8,
}

// As it is: a frame's bounds stand in each `requires`: `send` has them from one test, and a type for them would borrow the frame.
impl Route {
    // Check 22: would a VXLAN or NVGRE packet with a frame of n bytes exceed the MTU? A packet of just the MTU does not, and an STT frame is cut to it.
    #[tactic(auto, unfolding(crate::specs::Wrap::exceeds))]
    fn exceeds(&self, n: usize) -> bool
        requires { n ≤ 1514 }
        ensures { result ≡ exceeds self.now.kind n self.now.mtu }
    {
        let most = self.mtu as usize;
        match self.kind {
            KIND_VXLAN => most < VXLAN_OVERHEAD + n,
            KIND_NVGRE => most < NVGRE_OVERHEAD + n,
            _ => false,
        }
    }

    // How many packets carry a frame of n bytes. Only an STT frame is cut, into pieces of what the MTU leaves behind two headers of 20 bytes.
    #[tactic(auto, unfolding(crate::specs::Wrap::segments_of))]
    fn segments(&self, n: usize) -> usize
        requires { n ≤ 1514 }
        ensures { result ≡ segments_of self.now.kind n self.now.mtu }
    {
        if self.kind == KIND_VXLAN || self.kind == KIND_NVGRE {
            return 1;
        }
        let most = self.mtu as usize;
        if most <= SEGMENT_OVERHEAD {
            return 0;
        }
        let capacity = most - SEGMENT_OVERHEAD;
        (STT_HEADER + n + capacity - 1) / capacity
    }

    // Segment number `segment` of the frame's STT frame, which is cut into pieces of what the MTU leaves behind two headers. That it begins within the frame
    // keeps the product small.
    fn put_segment(
        &self,
        out: &mut [u8],
        identifier: u32,
        segment: usize,
        last: bool,
        frame: &[u8],
    ) -> Option<usize>
        requires { (14 ≤ length frame.now) × (length frame.now ≤ 1514) × (40 ≤ self.now.mtu)
            × (segment * (self.now.mtu - 40) < 18 + length frame.now) }
        ensures { Put (piece_of self.now.own self.now.peer self.now.port self.now.network identifier (self.now.mtu - 40) segment last frame.now)
            out.old out.new result }
    {
        let capacity = self.mtu as usize - SEGMENT_OVERHEAD;
        let size = STT_HEADER + frame.len();
        let start = segment * capacity;
        let end = size.min(start + capacity);
        let piece = Piece {
            source: self.own,
            destination: self.peer,
            port: self.port,
            context: self.network,
            identifier,
            offset: start,
            count: end - start,
            last,
        };
        write::segment(out, &piece, frame)
    }

    // The packet, by kind. A listed VNI or VSID has 24 bits; of any other number the lowest 32 are taken.
    fn put_packet(
        &self,
        out: &mut [u8],
        segment: usize,
        segments: usize,
        identifier: u32,
        frame: &[u8],
    ) -> Option<usize>
        requires { (14 ≤ length frame.now) × (length frame.now ≤ 1514) × (segments ≡ segments_of self.now.kind (length frame.now) self.now.mtu)
            × (segment < segments) }
        ensures { Put (packet_on self.now frame.now segment identifier) out.old out.new result }
    {
        let low = (self.network % 4294967296) as u32;
        match self.kind {
            KIND_VXLAN => write::vxlan(out, self.own, self.peer, low, frame),
            KIND_NVGRE => write::nvgre(out, self.own, self.peer, low, frame),
            _ => self.put_segment(out, identifier, segment, segment + 1 == segments, frame),
        }
    }

    // The call behind the binding: checks 13, 22, 23 (segment) and 21, in this order. A writer that has no room writes nothing.
    fn send(
        &self,
        frame: &[u8],
        segment: usize,
        identifier: u32,
        output: &mut [u8],
    ) -> Result<Packet, WrapRefusal>
        ensures value { result ≡ (send_of self.now frame.now segment identifier output.old).answer }
        ensures output_after { output.new ≡ (send_of self.now frame.now segment identifier output.old).output }
    {
        let Ok(()) = wire::frame::read(frame) else {
            return Err(WrapRefusal::BadFrame);
        };
        let n = frame.len();
        if self.exceeds(n) {
            return Err(WrapRefusal::ExceedsMtu);
        }
        let segments = self.segments(n);
        if segments <= segment {
            return Err(WrapRefusal::NoSegment);
        }
        let Some(length) = self.put_packet(output, segment, segments, identifier, frame) else {
            return Err(WrapRefusal::OutputTooShort);
        };
        Ok(Packet { length, segments })
    }
}

impl Endpoint {
    // The way out on a binding, which is looked up by its number.
    #[tactic(auto, unfolding(crate::specs::Config::config_of))]
    fn route(&self, binding: u32) -> Option<Route>
        ensures { result ≡ route_of self.now binding }
    {
        let b = binding as usize;
        if self.bindings_listed() <= b {
            return None;
        }
        let owner = self.owners[b];
        if OWNERS <= owner {
            return None;
        }
        Some(Route {
            network: self.networks[b],
            own: self.own,
            peer: self.addresses[owner as usize],
            port: self.port,
            mtu: self.mtu,
            kind: self.kinds[b],
        })
    }

    // Writes the packet that carries the frame out on the binding, or that carries its segment of this number, at the front of the output. The identifier is
    // the STT frame's: the segments of a frame are asked for one a call, all under the same one. The endpoint is only read. Promised: answer and output are
    // the definition's; document 01's number is the table's; and demand 1.
    pub fn wrap(
        &self,
        binding: u32,
        frame: &[u8],
        segment: u32,
        identifier: u32,
        output: &mut [u8],
    ) -> Result<Packet, WrapRefusal>
        ensures value { result ≡ (wrap_of self.now binding frame.now segment identifier output.old).answer }
        ensures output_after { output.new ≡ (wrap_of self.now binding frame.now segment identifier output.old).output }
        ensures result_value { Reached self.now → (wrap_values_of result).number ≡ numbered (wrap_rows self.now binding frame.now segment output.old) }
        ensures wrap_rule { WrapRule output.old (wrap_values_of result) output.new }
    {
        let Some(route) = self.route(binding) else {
            return Err(WrapRefusal::NoBinding);
        };
        route.send(frame, segment as usize, identifier, output)
    }
}
