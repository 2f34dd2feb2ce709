// A detector: which peer was the first to show an address of a tenant.
ghost use Rattle.std.specs.Prelude.{◌≡◌, position};
ghost use Rattle.detector.specs.Detector.{empty, kept_of, pairs_of, has, observation_of, observe_of};

use crate::number::ENTRIES;
use crate::observe::Observed;

// The entries, as parallel arrays, so that a lookup touches only what it compares. Behind the count every number is 0.
// As it is: a struct of C's, whose fields, order and layout stay; C may hand in any count.
#[repr(C)]
#[derive(Clone, Copy)]
pub struct Detector {
    pub addresses: [u64; ENTRIES],
    pub tenants: [u16; ENTRIES],
    pub peers: [u16; ENTRIES],
    pub count: u16,
}

impl Detector {
    // A detector with no entry.
    pub fn start() -> Detector
        ensures { result ≡ empty }
    {
        Detector {
            addresses: [0; ENTRIES],
            tenants: [0; ENTRIES],
            peers: [0; ENTRIES],
            count: 0,
        }
    }

    // How many entries are kept.
    fn kept(&self) -> usize
        ensures { result ≡ kept_of self.now.count }
    {
        usize::from(self.count).min(ENTRIES)
    }

    // The entry of this tenant and address.
    fn find(&self, tenant: u16, address: u64) -> Option<usize>
        ensures { result ≡ position (has tenant address) (pairs_of self.now) }
    {
        let n = self.kept();
        self.addresses[..n]
            .iter()
            .zip(&self.tenants[..n])
            .position(|(a, t)| *a == address && *t == tenant)
    }

    // Observes a delivered frame: its tenant, the peer that it came from, and its source address. Only a new one makes an entry.
    pub fn observe(&mut self, tenant: u16, peer: u16, address: u64) -> Observed
        ensures value { observation_of result ≡ (observe_of self.old tenant peer address).answer }
        ensures after { self.new ≡ (observe_of self.old tenant peer address).detector }
    {
        if let Some(i) = self.find(tenant, address) {
            let first = self.peers[i];
            if first == peer {
                return Observed::Known;
            }
            return Observed::Duplicate { first };
        }
        let n = usize::from(self.count);
        if n >= ENTRIES {
            return Observed::Full;
        }
        self.addresses[n] = address;
        self.tenants[n] = tenant;
        self.peers[n] = peer;
        self.count += 1;
        Observed::New
    }
}
