// The slots of a peer (document 01, "Reassembly memory").
ghost use Rattle.std.specs.Prelude.{◌≡◌};
ghost use Rattle.lookup.specs.Search.{found_of};
ghost use Rattle.reassembly.specs.Slots.{free, free_peer, first, bears, is_free_slot};

use crate::number::SLOTS;

// A slot holds a pending frame or is free. The paper leaves open what numbers a free slot has: here they are all 0.
// As it is: a flag beside the numbers and no Option: a struct of C's, whose fields, order and layout stay.
#[repr(C)]
#[derive(Clone, Copy)]
pub struct Slot {
    pub identifier: u32,
    pub frame_length: u16,
    pub age: u8,
    pub pending: bool,
}

// A peer record: each peer has four slots.
#[repr(C)]
#[derive(Clone, Copy)]
pub struct Peer {
    pub slots: [Slot; SLOTS],
}

impl Slot {
    pub(crate) fn free() -> Slot
        ensures { result ≡ free }
    {
        Slot {
            identifier: 0,
            frame_length: 0,
            age: 0,
            pending: false,
        }
    }

    // Is a frame with this identifier pending in the slot?
    #[tactic(auto, unfolding(crate::specs::Slots::bears))]
    fn bears(&self, identifier: u32) -> bool
        ensures { result ≡ bears identifier self.now }
    {
        self.pending && self.identifier == identifier
    }
}

impl Peer {
    // A peer record with every slot free.
    pub fn free() -> Peer
        ensures { result ≡ free_peer }
    {
        Peer {
            slots: [Slot::free(); SLOTS],
        }
    }

    // The lowest slot in which a frame with this identifier is pending.
    pub(crate) fn find_pending(&self, identifier: u32) -> Option<usize>
        ensures { result ≡ found_of (first (bears identifier) self.now.slots) }
    {
        self.slots.iter().position(|slot| slot.bears(identifier))
    }

    // The lowest free slot.
    pub(crate) fn find_free(&self) -> Option<usize>
        ensures { result ≡ found_of (first is_free_slot self.now.slots) }
    {
        self.slots.iter().position(|slot| !slot.pending)
    }
}
