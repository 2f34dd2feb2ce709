// A tick: every pending frame grows older by 1, and those that reach 4 are given up. It touches no memory and always succeeds.
ghost use Rattle.std.specs.Prelude.{◌≡◌, List, ℕ};
ghost use Rattle.endpoint.specs.Config.{Config};
ghost use Rattle.endpoint.specs.Receive.{answers, layers};
ghost use Rattle.reference.specs.Calls.{ticked_in, left_of};

use crate::reassembler::Reassembler;

impl Reassembler {
    pub fn tick(&mut self)
        ensures { (self.new.endpoint ≡ self.old.endpoint)
            × ((m : List ℕ) → left_of self.new m ≡ ticked_in answers Config layers (left_of self.old m)) }
    {
        for pending in &mut self.peers {
            pending.tick();
        }
    }
}
