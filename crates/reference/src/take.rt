// Taking a segment (document 01, "The numbered answers"; document 02, §7): 14, then 15, 16 and 32 if its identifier is pending, otherwise 17; then it is kept,
// and its frame rebuilt from nothing.
ghost use Rattle.std.specs.Prelude.{◌≡◌, ◌≤◌, ◌<◌, length, Ok, OnOk, IfOk, IfErr};
ghost use Rattle.reassembly.specs.Take.{seg_of, Fits};
ghost use Rattle.reassembly.specs.declared.take.Rejection.TheVariants.{NoSlot};
ghost use Rattle.reference.specs.Layout.{buffers_of, blank, spare, taken_in, Unfit, Excludes, Admits, Refuses, Joins, TakenAs};

use crate::answer::Refusal;
use crate::buffer::{Buffer, store};
use crate::list::Buffers;
use crate::number::{BLOCK_BYTES, FRAMES, REBUILT};
use reassembly::number::{STT_FRAME_MAX, STT_FRAME_MIN};
use reassembly::take::Rejection;
use wire::segment::Segment;

// What becomes of a frame with the segment. A complete one lies behind the blocks, as long as its segments say.
#[derive(Clone, Copy)]
pub(crate) enum Progress {
    Pending,
    Complete,
}

// 14: does the segment have bytes, and do they lie in a frame of a length that STT has?
#[tactic(auto, unfolding(crate::specs::Layout::taken_in))]
fn fits(segment: Segment, bytes: &[u8]) -> Result<(), Rejection>
    ensures fit { OnOk result (Fits (seg_of segment bytes.now)) }
    ensures unfit { IfErr result (Unfit (seg_of segment bytes.now)) }
{
    if bytes.is_empty() {
        return Err(Rejection::Empty);
    }
    if segment.frame_length < STT_FRAME_MIN || STT_FRAME_MAX < segment.frame_length {
        return Err(Rejection::FrameLength);
    }
    // in 16 bits the sum would wrap
    if usize::from(segment.frame_length) < usize::from(segment.offset) + bytes.len() {
        return Err(Rejection::PastEnd);
    }
    Ok(())
}

impl Buffer {
    // 15, 16, 32: does a further segment join this frame?
    #[tactic(auto, unfolding(crate::specs::Layout::further_in))]
    fn admits(&self, segment: Segment, bytes: &[u8]) -> Result<(), Refusal>
        requires { length bytes.now ≤ 1532 }
        ensures joins { OnOk result (Admits self.now (seg_of segment bytes.now)) }
        ensures refused { IfErr result (Excludes self.now (seg_of segment bytes.now)) }
    {
        if self.frame_length != segment.frame_length {
            return Err(Rejection::LengthDiffers.into());
        }
        if self.repeats(segment.offset, bytes.len()) {
            return Err(Rejection::AlreadyReceived.into());
        }
        if self.is_full() {
            return Err(Refusal::TooManySegments);
        }
        Ok(())
    }
}

impl Buffers {
    // Takes a segment of this peer's. Where it is refused, nothing changes.
    pub(crate) fn take(
        &mut self,
        peer: u8,
        segment: Segment,
        bytes: &[u8],
        memory: &mut [u8],
    ) -> Result<Progress, Refusal>
        ensures { TakenAs (taken_in peer (buffers_of self.old) memory.old (seg_of segment bytes.now)) result (buffers_of self.new) memory.new }
    {
        let frame = self.frame_of(segment, bytes)?;
        Ok(self.join(frame, peer, segment, bytes, memory))
    }

    // The frame that a segment joins: the one with its identifier, or a new one.
    fn frame_of(&self, segment: Segment, bytes: &[u8]) -> Result<Buffer, Refusal>
        ensures joins { IfOk result (Joins (buffers_of self.now) (seg_of segment bytes.now)) }
        ensures refused { IfErr result (Refuses (buffers_of self.now) (seg_of segment bytes.now)) }
    {
        fits(segment, bytes)?;
        match self.find(segment.identifier) {
            None => Ok(self.open(segment)?),
            Some(i) => {
                let frame = self.buffers[i];
                frame.admits(segment, bytes)?;
                Ok(frame)
            }
        }
    }

    // 17: a new frame, if fewer than four are pending.
    fn open(&self, segment: Segment) -> Result<Buffer, Rejection>
        ensures new { IfOk result (λ b. (b ≡ blank (spare (buffers_of self.now)) segment.identifier segment.frame_length)
            × (length (buffers_of self.now) < 4)) }
        ensures full { IfErr result (λ why. (why ≡ NoSlot) × (4 ≤ length (buffers_of self.now))) }
    {
        if FRAMES <= self.pending().len() {
            return Err(Rejection::NoSlot);
        }
        Ok(Buffer::new(segment.identifier, segment.frame_length, self.spare_block()))
    }

    // As it is: peer, header, bytes and memory come from four lenders.
    // The segment joins its frame, which is rebuilt: it waits for more, or it is complete and goes.
    fn join(
        &mut self,
        mut frame: Buffer,
        peer: u8,
        segment: Segment,
        bytes: &[u8],
        memory: &mut [u8],
    ) -> Progress
        requires { Joins (buffers_of self.old) (seg_of segment bytes.now) frame }
        ensures { TakenAs (taken_in peer (buffers_of self.old) memory.old (seg_of segment bytes.now)) (Ok result) (buffers_of self.new) memory.new }
    {
        let block = (FRAMES * usize::from(peer) + usize::from(frame.block)) * BLOCK_BYTES;
        store(memory, block + frame.end(), bytes);
        frame.add(segment.offset, bytes.len() as u16);
        let Some(rebuilt) = frame.rebuild(block, memory) else {
            self.put(frame);
            return Progress::Pending;
        };
        store(memory, REBUILT, &rebuilt[..usize::from(frame.frame_length)]);
        self.remove(frame.identifier);
        Progress::Complete
    }
}
