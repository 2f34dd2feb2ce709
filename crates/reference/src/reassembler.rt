// The state of the reference reassembler.
ghost use Rattle.std.specs.Prelude.{◌≡◌, List, ℕ};
ghost use Rattle.reference.specs.Calls.{left_of, begun_of};

use crate::list::Buffers;
use endpoint::config::Endpoint;
use reassembly::number::PEERS;

// An endpoint, whose configuration is used and whose own slots stay as they are; and the pending frames of each peer.
#[repr(C)]
#[derive(Clone, Copy)]
pub struct Reassembler {
    pub endpoint: Endpoint,
    pub peers: [Buffers; PEERS],
}

impl Reassembler {
    // With this endpoint's configuration, and no frame pending.
    pub fn start(e: Endpoint) -> Reassembler
        ensures { (result.endpoint ≡ e) × ((m : List ℕ) → left_of result m ≡ begun_of e m) }
    {
        Reassembler {
            endpoint: e,
            peers: [Buffers::new(); PEERS],
        }
    }
}
