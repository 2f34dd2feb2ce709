// The pending frames of a peer, in the order in which they were opened.
ghost use Rattle.std.specs.Prelude.{◌≡◌, [], ◌∷◌, ◌++◌, ◌<◌, length, eqb, position};
ghost use Rattle.std.proofs.Math.Option.{none};
ghost use Rattle.reference.specs.Keyed.{find, put, without};
ghost use Rattle.reference.specs.Layout.{buffers_of, identifier_in, older_buffers, uses, spare};

use crate::buffer::Buffer;
use crate::number::FRAMES;
use reassembly::number::AGE_MAX;

// What lies behind the count is free: no answer depends on it.
// As it is: an array and a count, seen through `buffers_of` and not by an impl Model: it crosses to C by value, and the list does not give back what lies
// behind.
#[repr(C)]
#[derive(Clone, Copy)]
pub struct Buffers {
    pub buffers: [Buffer; FRAMES],
    pub count: usize,
}

impl Buffers {
    // No frame is pending.
    pub(crate) fn new() -> Buffers
        ensures { buffers_of result ≡ [] }
    {
        Buffers {
            buffers: [Buffer::new(0, 0, 0); FRAMES],
            count: 0,
        }
    }

    // The frames that are pending.
    pub(crate) fn pending(&self) -> &[Buffer]
        ensures { result.now ≡ buffers_of self.now }
    {
        &self.buffers[..self.count.min(FRAMES)]
    }

    // The place of the first frame with this identifier.
    pub(crate) fn find(&self, identifier: u32) -> Option<usize>
        ensures { result ≡ position (λ b. eqb b.identifier identifier) (buffers_of self.now) }
    {
        self.pending()
            .iter()
            .position(|b| b.identifier == identifier)
    }

    // One frame more, at the end.
    fn push(&mut self, b: Buffer)
        requires { length (buffers_of self.old) < 4 }
        ensures { buffers_of self.new ≡ buffers_of self.old ++ (b ∷ []) }
    {
        let last = self.pending().len();
        self.buffers[last] = b;
        self.count = last + 1;
    }

    // The frame in the place of the one with its identifier, or at the end.
    pub(crate) fn put(&mut self, b: Buffer)
        requires { (find identifier_in b.identifier (buffers_of self.old) ≡ none) → (length (buffers_of self.old) < 4) }
        ensures { buffers_of self.new ≡ put identifier_in b (buffers_of self.old) }
    {
        match self.find(b.identifier) {
            Some(i) => self.buffers[i] = b,
            None => self.push(b),
        }
    }

    // All frames but those with this identifier stay.
    pub(crate) fn remove(&mut self, identifier: u32)
        ensures { buffers_of self.new ≡ without identifier_in identifier (buffers_of self.old) }
    {
        let mut left = Buffers::new();
        for b in self.pending() {
            if b.identifier != identifier {
                left.push(*b);
            }
        }
        *self = left;
    }

    // A tick: every frame is older by 1, and those that reach 4 are given up.
    pub(crate) fn tick(&mut self)
        ensures { buffers_of self.new ≡ older_buffers (buffers_of self.old) }
    {
        let mut left = Buffers::new();
        for b in self.pending() {
            if b.age < AGE_MAX {
                left.push(Buffer {
                    age: b.age + 1,
                    ..*b
                });
            }
        }
        *self = left;
    }

    fn uses(&self, block: u8) -> bool
        ensures { result ≡ uses (buffers_of self.now) block }
    {
        self.pending().iter().any(|b| b.block == block)
    }

    // The lowest block that no frame uses: one of the four, where not all four are in use.
    pub(crate) fn spare_block(&self) -> u8
        ensures { result ≡ spare (buffers_of self.now) }
    {
        (0..3).find(|&block| !self.uses(block)).unwrap_or(3)
    }
}
