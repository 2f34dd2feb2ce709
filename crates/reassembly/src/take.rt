// Taking a segment (document 01, "The numbered answers" and "Reassembly memory"): 14, then 15 and 16 if its identifier is pending, otherwise 17;
// then the segment is stored. What a complete frame is worth is judged by the caller.
ghost use Rattle.std.specs.Prelude.{◌≡◌, ◌+◌, ◌<◌, ◌≤◌, cond, length, set};
ghost use Rattle.reassembly.specs.Slots.{free, most_peers, most_slots};
ghost use Rattle.reassembly.specs.Take.{rejection_code, seg_of, chosen, placed, complete, slot_no, Complete, Pending, old, fresh, Old, Fresh, decision_of};
ghost use Rattle.reassembly.specs.Store.{bytes_of, take_in};

use crate::memory;
use crate::number::{MEMORY_BYTES, PEERS, SLOTS, STT_FRAME_MAX, STT_FRAME_MIN};
use crate::slot::{Peer, Slot};
use wire::segment::Segment;

// Why a segment is not taken: 14 (Empty, FrameLength, PastEnd), 15 (LengthDiffers), 16 (AlreadyReceived), 17 (NoSlot).
#[derive(Clone, Copy)]
pub enum Rejection {
    Empty,
    FrameLength,
    PastEnd,
    LengthDiffers,
    AlreadyReceived,
    NoSlot,
}

impl Rejection {
    // Document 01's number.
    #[tactic(auto, unfolding(crate::specs::Take::rejection_code))]
    pub fn code(self) -> u8
        ensures { result ≡ rejection_code self }
    {
        match self {
            Rejection::Empty | Rejection::FrameLength | Rejection::PastEnd => 14,
            Rejection::LengthDiffers => 15,
            Rejection::AlreadyReceived => 16,
            Rejection::NoSlot => 17,
        }
    }
}

// Complete names the slot in its peer record; the frame lies in the memory. NoMemory: the peer's slots do not lie in the memory.
// As it is: a Result is no plainer: it takes an enum of errors around `Rejection`, and its one caller tells all four apart.
#[derive(Clone, Copy)]
pub enum Outcome {
    Rejected(Rejection),
    Pending,
    Complete(usize),
    NoMemory,
}

// What a segment that is not rejected does: it belongs to the frame pending in a slot, or opens a frame in a free one.
#[derive(Clone, Copy)]
pub(crate) enum Decision {
    Further(usize),
    Open(usize),
}

// Where a segment ends in its frame. In 16 bits the sum would wrap, and 65,535 + 1 seem small.
fn end_of(offset: u16, bytes: &[u8]) -> usize
    ensures { result ≡ offset + length bytes.now }
{
    offset as usize + bytes.len()
}

// As it is: peer, header, bytes and memory come from four lenders, and the definitions have header and bytes as one (`seg_of`); that the memory is long enough
// is tested once.
impl Peer {
    // Takes a segment of this peer, the listed peer of number `peer`. A rejection changes neither the record nor the memory.
    pub fn take(
        &mut self,
        peer: usize,
        segment: Segment,
        bytes: &[u8],
        memory: &mut [u8],
    ) -> Outcome
        ensures value { result ≡ (take_in peer self.old memory.old (seg_of segment bytes.now)).outcome }
        ensures record_after { self.new ≡ (take_in peer self.old memory.old (seg_of segment bytes.now)).row }
        ensures memory_after { memory.new ≡ (take_in peer self.old memory.old (seg_of segment bytes.now)).mem }
    {
        if PEERS <= peer || memory.len() < MEMORY_BYTES {
            return Outcome::NoMemory;
        }
        match self.decide(segment, bytes) {
            Err(why) => Outcome::Rejected(why),
            Ok(Decision::Further(s)) => self.further(peer, s, segment, bytes, memory),
            Ok(Decision::Open(s)) => self.open(peer, s, segment, bytes, memory),
        }
    }

    // The checks 14, 15 and 17, in this order. The search is in this peer's record alone: a frame is known by peer and identifier.
    pub(crate) fn decide(&self, segment: Segment, bytes: &[u8]) -> Result<Decision, Rejection>
        ensures { result ≡ decision_of (chosen self.now.slots (seg_of segment bytes.now)) }
    {
        if bytes.is_empty() {
            return Err(Rejection::Empty);
        }
        if !(STT_FRAME_MIN..=STT_FRAME_MAX).contains(&segment.frame_length) {
            return Err(Rejection::FrameLength);
        }
        if (segment.frame_length as usize) < end_of(segment.offset, bytes) {
            return Err(Rejection::PastEnd);
        }
        if let Some(s) = self.find_pending(segment.identifier) {
            if self.slots[s].frame_length != segment.frame_length {
                return Err(Rejection::LengthDiffers);
            }
            return Ok(Decision::Further(s));
        }
        let Some(lowest) = self.find_free() else {
            return Err(Rejection::NoSlot);
        };
        Ok(Decision::Open(lowest))
    }

    // A further segment of the frame that is pending in slot s: 16, or it is stored.
    fn further(
        &mut self,
        peer: usize,
        s: usize,
        segment: Segment,
        bytes: &[u8],
        memory: &mut [u8],
    ) -> Outcome
        requires { (peer < most_peers) × (55296 ≤ length memory.old) × Old self.old.slots (seg_of segment bytes.now) s }
        ensures value { result ≡ (placed bytes_of peer self.old.slots memory.old (seg_of segment bytes.now) (old s)).outcome }
        ensures record_after { self.new ≡ (placed bytes_of peer self.old.slots memory.old (seg_of segment bytes.now) (old s)).row }
        ensures memory_after { memory.new ≡ (placed bytes_of peer self.old.slots memory.old (seg_of segment bytes.now) (old s)).mem }
    {
        let k = SLOTS * peer + s;
        let offset = segment.offset as usize;
        if memory::some_received(memory, k, offset, bytes.len()) {
            return Outcome::Rejected(Rejection::AlreadyReceived);
        }
        memory::put(memory, k, offset, bytes);
        self.finish(peer, s, segment.frame_length, memory)
    }

    // The first segment of a frame, which takes slot s: nothing is received there yet, and its age is 0.
    fn open(
        &mut self,
        peer: usize,
        s: usize,
        segment: Segment,
        bytes: &[u8],
        memory: &mut [u8],
    ) -> Outcome
        requires { (peer < most_peers) × (55296 ≤ length memory.old) × Fresh self.old.slots (seg_of segment bytes.now) s }
        ensures value { result ≡ (placed bytes_of peer self.old.slots memory.old (seg_of segment bytes.now) (fresh s)).outcome }
        ensures record_after { self.new ≡ (placed bytes_of peer self.old.slots memory.old (seg_of segment bytes.now) (fresh s)).row }
        ensures memory_after { memory.new ≡ (placed bytes_of peer self.old.slots memory.old (seg_of segment bytes.now) (fresh s)).mem }
    {
        let k = SLOTS * peer + s;
        memory::clear(memory, k);
        memory::put(memory, k, segment.offset as usize, bytes);
        self.slots[s] = Slot {
            identifier: segment.identifier,
            frame_length: segment.frame_length,
            age: 0,
            pending: true,
        };
        self.finish(peer, s, segment.frame_length, memory)
    }

    // The frame in slot s is complete when every byte below its length is received; then its slot is free.
    #[tactic(auto, unfolding(crate::specs::Take::complete, crate::specs::Take::slot_no))]
    fn finish(&mut self, peer: usize, s: usize, size: u16, memory: &[u8]) -> Outcome
        requires { (peer < most_peers) × (s < most_slots) × (size ≤ 1532) × (55296 ≤ length memory.now) }
        ensures value { result ≡ cond (complete bytes_of memory.now (slot_no peer s) size) (Complete s) Pending }
        ensures record_after { self.new ≡ cond (complete bytes_of memory.now (slot_no peer s) size) (record { slots = set self.old.slots s free }) self.old }
    {
        if memory::all_received(memory, SLOTS * peer + s, size as usize) {
            self.slots[s] = Slot::free();
            return Outcome::Complete(s);
        }
        Outcome::Pending
    }
}
