// Starting an endpoint, and adding to its configuration.
ghost use Rattle.std.specs.Prelude.{◌≡◌};
ghost use Rattle.endpoint.specs.Config.{start_of, add_peer_of, add_binding_of};
ghost use Rattle.niulassenc.specs.Answer.{started_of, addition_of};

use crate::answer::Addition;
use endpoint::code::config_answer_code;
use endpoint::config::Endpoint;

// What a start or a load gives. A refused one gives an endpoint with every number 0.
// As it is: flat, for C; and made without a From, which would take the endpoint, 1,072 bytes, by value.
#[repr(C)]
#[derive(Clone, Copy)]
pub struct Started {
    pub endpoint: Endpoint,
    pub code: u8,
}

// Starts an endpoint: our own address, the port on which STT is expected, and the largest outer packet that is written.
#[tactic(auto, using(endpoint::proofs::Laws::Answer::start_code_is))]
pub fn niulassenc_start(own: u32, port: u32, mtu: u32) -> Started
    ensures { result ≡ started_of (start_of own port mtu) }
{
    let started = Endpoint::start(own, port, mtu);
    let code = config_answer_code(&started.answer);
    let endpoint = started.endpoint;
    Started { endpoint, code }
}

// Lists a peer.
pub fn niulassenc_add_peer(endpoint: &mut Endpoint, address: u32) -> Addition
    ensures { (result ≡ addition_of (add_peer_of endpoint.old address).answer)
        × (endpoint.new ≡ (add_peer_of endpoint.old address).endpoint) }
{
    endpoint.add_peer(address).into()
}

// Binds a network of a listed peer to a tenant.
pub fn niulassenc_add_binding(
    endpoint: &mut Endpoint,
    peer: u32,
    kind: u32,
    network: u64,
    tenant: u32,
) -> Addition
    ensures { (result ≡ addition_of (add_binding_of endpoint.old peer kind network tenant).answer)
        × (endpoint.new ≡ (add_binding_of endpoint.old peer kind network tenant).endpoint) }
{
    endpoint.add_binding(peer, kind, network, tenant).into()
}
