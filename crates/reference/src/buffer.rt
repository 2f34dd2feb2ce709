// A pending frame: its segments as they were taken. Their bytes lie end to end, in the order in which they came, in the frame's block of the lent memory; here
// stands which bytes of the frame each of them is.
ghost use Rattle.std.specs.Prelude.{◌≡◌, ◌+◌, ◌≤◌, ◌<◌, length, get_or, take, leb, is_some, IfSome};
ghost use Rattle.reassembly.specs.Base.{some_below};
ghost use Rattle.reference.specs.Reassembler.{most_segments, rebuilt};
ghost use Rattle.reference.specs.Layout.{kept, begins, has_byte, place_in, stored, parts_in, Rebuilds, added, blank};

use crate::number::{BLOCK_BYTES, SEGMENTS};

// Which bytes of its frame a segment is.
#[repr(C)]
#[derive(Clone, Copy)]
pub struct Extent {
    pub offset: u16,
    pub length: u16,
}

impl Extent {
    // Is byte i of the frame one of them?
    #[tactic(auto, unfolding(crate::specs::Layout::has_byte))]
    fn has(self, i: usize) -> bool
        ensures { result ≡ has_byte self i }
    {
        let offset = usize::from(self.offset);
        offset <= i && i < offset + usize::from(self.length)
    }
}

// A pending frame: how many segments are kept, and where in its frame each belongs; which of its peer's blocks has their bytes.
// As it is: an array and a count, since there is no heap and it crosses to C by value.
#[repr(C)]
#[derive(Clone, Copy)]
pub struct Buffer {
    pub extents: [Extent; SEGMENTS],
    pub identifier: u32,
    pub frame_length: u16,
    pub count: u16,
    pub age: u8,
    pub block: u8,
}

impl Buffer {
    // A frame with no segment yet.
    pub(crate) fn new(identifier: u32, frame_length: u16, block: u8) -> Buffer
        ensures { result ≡ blank block identifier frame_length }
    {
        let none = Extent {
            offset: 0,
            length: 0,
        };
        Buffer {
            extents: [none; SEGMENTS],
            identifier,
            frame_length,
            count: 0,
            age: 0,
            block,
        }
    }

    // The segments, in the order in which they came. No call leaves more than there is room for.
    fn segments(&self) -> &[Extent]
        ensures { result.now ≡ take (kept self.now) self.now.extents }
    {
        &self.extents[..usize::from(self.count).min(SEGMENTS)]
    }

    // Are there as many as there is room for?
    pub(crate) fn is_full(&self) -> bool
        ensures { result ≡ leb most_segments (kept self.now) }
    {
        SEGMENTS <= usize::from(self.count)
    }

    // Where the bytes of the segments end in the block, and those of the next begin.
    pub(crate) fn end(&self) -> usize
        ensures { (result ≡ begins self.now.extents (kept self.now)) × (result ≤ 8388608) }
    {
        let mut at = 0;
        for e in self.segments() {
            at += usize::from(e.length);
        }
        at
    }

    // Where byte i of the frame lies, counted from the block's start: in the latest segment that has it, and so among the bytes of at most 64 segments.
    pub(crate) fn find(&self, i: usize) -> Option<usize>
        ensures { (result ≡ place_in self.now.extents (kept self.now) i) × IfSome result (λ at. at < 8388608) }
    {
        let mut found = None;
        let mut at = 0;
        for e in self.segments() {
            let length = usize::from(e.length);
            if e.has(i) {
                found = Some(at + (i - usize::from(e.offset)));
            }
            at += length;
        }
        found
    }

    // Is some byte of the frame, among the n from offset on, there already?
    pub(crate) fn repeats(&self, offset: u16, n: usize) -> bool
        requires { n ≤ 1532 }
        ensures { result ≡ some_below n (λ i. is_some (place_in self.now.extents (kept self.now) (offset + i))) }
    {
        (0..n).any(|i| self.find(usize::from(offset) + i).is_some())
    }

    // One segment more: n bytes from offset on.
    pub(crate) fn add(&mut self, offset: u16, n: u16)
        requires { kept self.old < most_segments }
        ensures { self.new ≡ added self.old offset n }
    {
        self.extents[usize::from(self.count)] = Extent { offset, length: n };
        self.count += 1;
    }

    // The frame rebuilt from its segments, whose block begins at `block`, from nothing; none where a byte is missing.
    pub(crate) fn rebuild(&self, block: usize, memory: &[u8]) -> Option<[u8; BLOCK_BYTES]>
        requires { (block ≤ 16777216) × (self.now.frame_length ≤ 1532) }
        ensures { Rebuilds (rebuilt (parts_in self.now.extents memory.now block (kept self.now)) self.now.frame_length) result }
    {
        let mut frame = [0; BLOCK_BYTES];
        for i in 0..usize::from(self.frame_length) {
            let place = self.find(i)?;
            frame[i] = byte_of(memory, block + place);
        }
        Some(frame)
    }
}

// Byte i of the memory; 0 behind its end.
fn byte_of(memory: &[u8], i: usize) -> u8
    ensures { result ≡ get_or memory.now i 0 }
{
    memory.get(i).copied().unwrap_or(0)
}

// Bytes to their place in the memory. Where it has no such place, which no call leaves, nothing is written.
#[tactic(auto, unfolding(crate::specs::Layout::stored))]
pub(crate) fn store(memory: &mut [u8], at: usize, bytes: &[u8])
    requires { (at ≤ 16777216) × (length bytes.now ≤ 65536) }
    ensures { memory.new ≡ stored memory.old at bytes.now }
{
    let end = at + bytes.len();
    if end <= memory.len() {
        memory[at..end].copy_from_slice(bytes);
    }
}
