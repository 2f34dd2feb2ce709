// The frames of the run.
use program::number::fill;

// The smallest and the largest frame.
pub(crate) const FRAME_MIN: u16 = 14;

pub(crate) const FRAME_MAX: u16 = 1514;

// A frame of this size for a binding.
// As it is: an array with a count, and no vector: the program needs no heap.
#[derive(Clone, Copy)]
pub(crate) struct Frame {
    pub binding: u16,
    pub size: u16,
    room: [u8; FRAME_MAX as usize],
}

// By its size a frame carries TCP or UDP over IPv4 or IPv6, as far as there is room for the IP header: of four sizes two are of IPv4 and two of IPv6; of either
// two, one has TCP and one UDP.
fn put_header(bytes: &mut [u8], size: u16) {
    let transport = if size % 2 == 0 { 6 } else { 17 };
    let header = if size % 4 < 2 {
        [
            (12, 0x08),
            (13, 0x00),
            (14, 0x45),
            (20, 0x40),
            (21, 0),
            (23, transport),
        ]
    } else {
        [
            (12, 0x86),
            (13, 0xdd),
            (14, 0x60),
            (20, transport),
            (21, 0),
            (23, transport),
        ]
    };
    for (at, value) in header {
        if let Some(byte) = bytes.get_mut(at) {
            *byte = value;
        }
    }
}

impl Frame {
    // Its bytes are the generator's, but for its header: the seed, 16 size + binding, is another for every size and binding.
    pub(crate) fn new(binding: u16, size: u16) -> Frame {
        let mut frame = Frame {
            binding,
            size,
            room: [0; FRAME_MAX as usize],
        };
        if let Some(bytes) = frame.room.get_mut(..usize::from(size)) {
            fill(bytes, u64::from(size) * 16 + u64::from(binding));
            put_header(bytes, size);
        }
        frame
    }

    // Its bytes; none of a size beyond the largest.
    pub(crate) fn bytes(&self) -> &[u8] {
        self.room.get(..usize::from(self.size)).unwrap_or(&[])
    }
}
