// A tick.
ghost use Rattle.std.specs.Prelude.{◌≡◌};
ghost use Rattle.endpoint.specs.Answer.{tick_code};
ghost use Rattle.endpoint.specs.Config.{tick_of};

use endpoint::config::Endpoint;

// Makes every pending frame older by 1, and frees those that reach 4. It always succeeds: 0.
#[tactic(auto, using(endpoint::proofs::Laws::Answer::tick_code_lem))]
pub fn niulassenc_tick(endpoint: &mut Endpoint) -> u8
    ensures { (result ≡ tick_code (tick_of endpoint.old).answer) × (endpoint.new ≡ (tick_of endpoint.old).endpoint) }
{
    endpoint.tick();
    0
}
