// Ageing (document 01, "Reassembly memory"): a tick adds 1 to the age of every pending frame and frees those that reach 4. It touches no memory.
ghost use Rattle.std.specs.Prelude.{◌≡◌};
ghost use Rattle.reassembly.specs.Slots.{older, older_row};

use crate::number::AGE_MAX;
use crate::slot::{Peer, Slot};

impl Slot {
    #[tactic(auto, unfolding(crate::specs::Slots::older))]
    fn older(self) -> Slot
        ensures { result ≡ older self }
    {
        if !self.pending {
            return self;
        }
        if AGE_MAX <= self.age {
            return Slot::free();
        }
        Slot {
            age: self.age + 1,
            ..self
        }
    }
}

impl Peer {
    #[tactic(auto, unfolding(crate::specs::Slots::older_row))]
    pub fn tick(&mut self)
        ensures { self.new ≡ older_row self.old }
    {
        for slot in &mut self.slots {
            *slot = slot.older();
        }
    }
}
