// Whose a binding is: with it a caller tells from a delivered frame's binding which peer sent it.
ghost use Rattle.std.specs.Prelude.{◌≡◌};
ghost use Rattle.endpoint.specs.Config.{config_of};
ghost use Rattle.niulassenc.specs.Answer.{or_none};
ghost use Rattle.niulassenc.specs.Owner.{owner_of};

use crate::answer::NONE;
use endpoint::config::Endpoint;

// The number of the peer that the binding is of; 0xFFFF where no such binding is listed.
#[tactic(auto, using(endpoint::proofs::Laws::Config::config_is), unfolding(crate::specs::Owner::owner_of))]
pub fn niulassenc_owner(endpoint: &Endpoint, binding: u32) -> u16
    ensures { result ≡ or_none (owner_of (config_of endpoint.now) binding) }
{
    let b = binding as usize;
    if endpoint.bindings_listed() <= b {
        return NONE;
    }
    u16::from(endpoint.owners[b])
}
