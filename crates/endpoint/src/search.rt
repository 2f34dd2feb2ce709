// Lookups (document 01, "Listing and numbers"): the lowest-numbered peer or binding that matches.
ghost use Rattle.std.specs.Prelude.{◌≡◌, ◌==◌, ◌<◌, min, position};
ghost use Rattle.reassembly.specs.Slots.{most_peers};
ghost use Rattle.endpoint.specs.Search.{found_of};
ghost use Rattle.endpoint.specs.Config.{config_of, find_peer, find_binding, binds, most_bindings};

use crate::config::Endpoint;
use crate::number::BINDINGS;
use reassembly::number::PEERS;

impl Endpoint {
    // How many peers are listed, and how many bindings: a count above the columns' length is taken as that length.
    pub fn peers_listed(&self) -> usize
        ensures { result ≡ min self.now.peer_count most_peers }
    {
        PEERS.min(self.peer_count as usize)
    }

    pub fn bindings_listed(&self) -> usize
        ensures { result ≡ min self.now.binding_count most_bindings }
    {
        BINDINGS.min(self.binding_count as usize)
    }

    // The first of all eight peers that has this address, listed or not.
    fn first_peer(&self, address: u32) -> Option<usize>
        ensures { result ≡ position (λ listed. listed == address) self.now.addresses }
    {
        self.addresses.iter().position(|listed| *listed == address)
    }

    // The listed peer that has this address. All eight are looked at, whatever the count, so that the number of turns is fixed.
    pub fn find_peer(&self, address: u32) -> Option<usize>
        ensures { result ≡ found_of (find_peer (config_of self.now) address) }
    {
        let p = self.first_peer(address)?;
        if p < self.peers_listed() {
            Some(p)
        } else {
            None
        }
    }

    // Has binding i this network, kind and peer?
    #[tactic(auto, unfolding(crate::specs::Config::binds))]
    fn binds(&self, i: usize, peer: usize, kind: u8, network: u64) -> bool
        requires { i < most_bindings }
        ensures { result ≡ binds self.now.networks self.now.kinds self.now.owners peer kind network i }
    {
        self.networks[i] == network && self.kinds[i] == kind && self.owners[i] as usize == peer
    }

    // The listed binding that has this network, kind and peer. A turn looks at two, which saves half of the turns; of the last two only one may be listed.
    // As it is: a search by hand: a `for` of one a turn takes some 120 instructions more where 64 bindings are listed.
    #[tactic(auto, unfolding(crate::specs::Config::find_binding, crate::specs::Config::config_of))]
    pub(crate) fn search(&self, peer: usize, kind: u8, network: u64) -> Option<usize>
        ensures { result ≡ found_of (find_binding (config_of self.now) peer kind network) }
    {
        let n = self.bindings_listed();
        for k in 0..(n + 1) / 2 {
            let i = 2 * k;
            if self.binds(i, peer, kind, network) {
                return Some(i);
            }
            if self.binds(i + 1, peer, kind, network) {
                return if i + 1 < n { Some(i + 1) } else { None };
            }
        }
        None
    }

    // The same as a call of its own: in the midst of a receive the loop has too few registers, and takes half as long again.
    #[inline(never)]
    fn search_apart(&self, peer: usize, kind: u8, network: u64) -> Option<usize>
        ensures { result ≡ found_of (find_binding (config_of self.now) peer kind network) }
    {
        self.search(peer, kind, network)
    }

    // The same for a receive, which makes no call where no binding is listed, or binding 0 is the one.
    pub fn find_binding(&self, peer: usize, kind: u8, network: u64) -> Option<usize>
        ensures { result ≡ found_of (find_binding (config_of self.now) peer kind network) }
    {
        if self.binding_count == 0 {
            return None;
        }
        if self.binds(0, peer, kind, network) {
            return Some(0);
        }
        self.search_apart(peer, kind, network)
    }
}
