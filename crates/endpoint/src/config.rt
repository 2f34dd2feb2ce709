// The configuration (document 01: listing): settings, peers and bindings.
ghost use Rattle.std.specs.Prelude.{◌≡◌, not};
ghost use Rattle.endpoint.specs.Answer.{start_code, added_values_of};
ghost use Rattle.wire.specs.Table.{numbered};
ghost use Rattle.endpoint.specs.Table.{bad_address, start_rows, add_peer_rows, add_binding_rows};
ghost use Rattle.endpoint.specs.Demand1.{StartRule, AddRule, PeerAdded, BindingAdded};
ghost use Rattle.endpoint.specs.Config.{any_met, start_checks, bad_peer, bad_binding, is_network, start_of, add_peer_of, add_binding_of, fresh};

use crate::answer::ConfigRefusal;
use crate::number::{
    BINDINGS, FIRST_BYTE, IDS, MTU_MAX, MTU_MIN, MULTICAST, NVGRE, STT, STT_PORT_MAX, TENANT_MAX,
    VSID_MIN, VSID_RESERVED, VXLAN,
};
use reassembly::number::PEERS;
use reassembly::slot::Peer;

// An endpoint. Peers and bindings are parallel arrays, so that a lookup touches only what it compares.
// As it is: a struct of C's, whose fields, order and layout stay; C may hand in any counts.
#[repr(C)]
#[derive(Clone, Copy)]
pub struct Endpoint {
    pub networks: [u64; BINDINGS],
    pub peers: [Peer; PEERS],
    pub addresses: [u32; PEERS],
    pub own: u32,
    pub tenants: [u16; BINDINGS],
    pub port: u16,
    pub mtu: u16,
    pub peer_count: u16,
    pub binding_count: u16,
    pub kinds: [u8; BINDINGS],
    pub owners: [u8; BINDINGS],
}

// What a start gives: of a refused one the endpoint with every number 0.
// As it is: no Result of an endpoint, since a refused start gives one too: `StartRule` says of it that every number is 0, and C gets it.
#[derive(Clone, Copy)]
pub struct StartResult {
    pub endpoint: Endpoint,
    pub answer: Result<(), ConfigRefusal>,
}

// A host's address: its first byte is neither 0 nor 224 or more.
fn is_host(address: u32) -> bool
    ensures { result ≡ not (bad_address address) }
{
    let first = address / FIRST_BYTE;
    first != 0 && first < MULTICAST
}

// The ids of a kind: VXLAN has 24 bits, NVGRE (RFC 7637, 3.4) reserves the first 4,096 and the last of its 24 bits, STT has 64.
#[tactic(auto, unfolding(crate::specs::Config::is_network))]
fn is_network(kind: u32, network: u64) -> bool
    ensures { result ≡ is_network kind network }
{
    // As it is: by the number of the kind: any number may be asked for (`is_network`).
    match kind {
        VXLAN => network < IDS,
        NVGRE => VSID_MIN <= network && network < VSID_RESERVED,
        _ => kind == STT,
    }
}

// Are the settings of a start in their range?
#[tactic(auto, unfolding(crate::specs::Config::start_checks))]
fn settings_fit(own: u32, port: u32, mtu: u32) -> bool
    ensures { result ≡ not (any_met (start_checks own port mtu)) }
{
    is_host(own) && (1..=STT_PORT_MAX).contains(&port) && (MTU_MIN..=MTU_MAX).contains(&mtu)
}

impl Endpoint {
    // An endpoint with these settings, no listing, and every slot free.
    #[tactic(auto, unfolding(crate::specs::Config::fresh))]
    fn blank(own: u32, port: u16, mtu: u16) -> Endpoint
        ensures { result ≡ fresh own port mtu }
    {
        Endpoint {
            networks: [0; BINDINGS],
            peers: [Peer::free(); PEERS],
            addresses: [0; PEERS],
            own,
            tenants: [0; BINDINGS],
            port,
            mtu,
            peer_count: 0,
            binding_count: 0,
            kinds: [0; BINDINGS],
            owners: [0; BINDINGS],
        }
    }

    // Starts an endpoint: our own address, the port on which STT is expected, and the largest outer packet that is written.
    pub fn start(own: u32, port: u32, mtu: u32) -> StartResult
        ensures value { result ≡ start_of own port mtu }
        ensures answer_value { start_code result.answer ≡ numbered (start_rows own port mtu) }
        ensures start_rule { StartRule own port mtu result }
    {
        if !settings_fit(own, port, mtu) {
            return StartResult {
                endpoint: Endpoint::blank(0, 0, 0),
                answer: Err(ConfigRefusal::OutOfRange),
            };
        }
        StartResult {
            endpoint: Endpoint::blank(own, port as u16, mtu as u16),
            answer: Ok(()),
        }
    }

    // Is it another host's address? The port of a refused start is 0: nothing is added to it.
    #[tactic(auto, unfolding(crate::specs::Config::add_peer_checks))]
    fn may_list(&self, address: u32) -> bool
        ensures { result ≡ not (bad_peer self.now address) }
    {
        self.port != 0 && is_host(address) && address != self.own
    }

    // Lists a peer, and gives its number.
    pub fn add_peer(&mut self, address: u32) -> Result<u16, ConfigRefusal>
        ensures value { result ≡ (add_peer_of self.old address).answer }
        ensures endpoint_after { self.new ≡ (add_peer_of self.old address).endpoint }
        ensures answer_value { (added_values_of result).number ≡ numbered (add_peer_rows self.old address) }
        ensures add_rule { AddRule self.old (PeerAdded self.old address) (record { endpoint = self.new; answer = result }) }
    {
        if !self.may_list(address) {
            return Err(ConfigRefusal::OutOfRange);
        }
        if self.find_peer(address).is_some() {
            return Err(ConfigRefusal::AlreadyListed);
        }
        let number = self.peer_count;
        let n = number as usize;
        if PEERS <= n {
            return Err(ConfigRefusal::Full);
        }
        self.addresses[n] = address;
        self.peer_count = number + 1;
        Ok(number)
    }

    // Is the peer listed, and are the network and the tenant in their range?
    #[tactic(auto, unfolding(crate::specs::Config::add_binding_checks, crate::specs::Config::config_of))]
    fn may_bind(&self, peer: u32, kind: u32, network: u64, tenant: u32) -> bool
        ensures { result ≡ not (bad_binding self.now peer kind network tenant) }
    {
        (peer as usize) < self.peers_listed() && is_network(kind, network) && tenant <= TENANT_MAX
    }

    // Binds a network of a listed peer to a tenant, and gives the binding's number.
    #[inline(always)]
    pub fn add_binding(
        &mut self,
        peer: u32,
        kind: u32,
        network: u64,
        tenant: u32,
    ) -> Result<u16, ConfigRefusal>
        ensures value { result ≡ (add_binding_of self.old peer kind network tenant).answer }
        ensures endpoint_after { self.new ≡ (add_binding_of self.old peer kind network tenant).endpoint }
        ensures answer_value { (added_values_of result).number ≡ numbered (add_binding_rows self.old peer kind network tenant) }
        ensures add_rule { AddRule self.old (BindingAdded self.old peer kind network tenant) (record { endpoint = self.new; answer = result }) }
    {
        if !self.may_bind(peer, kind, network, tenant) {
            return Err(ConfigRefusal::OutOfRange);
        }
        let kind = kind as u8;
        if self.search(peer as usize, kind, network).is_some() {
            return Err(ConfigRefusal::AlreadyListed);
        }
        let number = self.binding_count;
        let n = number as usize;
        if BINDINGS <= n {
            return Err(ConfigRefusal::Full);
        }
        self.networks[n] = network;
        self.kinds[n] = kind;
        self.owners[n] = peer as u8;
        self.tenants[n] = tenant as u16;
        self.binding_count = number + 1;
        Ok(number)
    }
}
