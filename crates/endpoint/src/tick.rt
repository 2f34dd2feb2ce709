// A tick (document 01, "Reassembly memory"): every pending frame grows older by 1, and those that reach 4 are freed. It touches no memory and always succeeds.
ghost use Rattle.std.specs.Prelude.{◌≡◌};
ghost use Rattle.endpoint.specs.Answer.{tick_code};
ghost use Rattle.endpoint.specs.Config.{tick_of};
ghost use Rattle.endpoint.specs.Demand1.{TickRule};

use crate::config::Endpoint;

impl Endpoint {
    pub fn tick(&mut self)
        ensures value { self.new ≡ (tick_of self.old).endpoint }
        ensures tick_rule { TickRule self.old (tick_code (tick_of self.old).answer) self.new }
    {
        for row in &mut self.peers {
            row.tick();
        }
    }
}
