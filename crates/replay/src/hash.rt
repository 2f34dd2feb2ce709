// The hashes of a detector's and an endpoint's whole state. host/README.md has the order of their numbers, which are big-endian.
use detector::detector::Detector;
use endpoint::config::Endpoint;
use program::number::Hasher;

// Every entry, those that are not kept too, and how many are.
pub(crate) fn detector_hash(d: &Detector) -> u32 {
    let mut hasher = Hasher::new();
    for ((address, tenant), peer) in d.addresses.iter().zip(&d.tenants).zip(&d.peers) {
        hasher.write(&address.to_be_bytes());
        hasher.write(&tenant.to_be_bytes());
        hasher.write(&peer.to_be_bytes());
    }
    hasher.write(&d.count.to_be_bytes());
    hasher.finish()
}

// Every number, those behind the counts and in free slots too.
pub(crate) fn endpoint_hash(e: &Endpoint) -> u32 {
    let mut hasher = Hasher::new();
    hasher.write(&e.own.to_be_bytes());
    hasher.write(&e.port.to_be_bytes());
    hasher.write(&e.mtu.to_be_bytes());
    hasher.write(&e.peer_count.to_be_bytes());
    hasher.write(&e.binding_count.to_be_bytes());
    for address in &e.addresses {
        hasher.write(&address.to_be_bytes());
    }
    let bindings = e
        .owners
        .iter()
        .zip(&e.kinds)
        .zip(&e.networks)
        .zip(&e.tenants);
    for (((owner, kind), network), tenant) in bindings {
        hasher.write(&[*owner, *kind]);
        hasher.write(&network.to_be_bytes());
        hasher.write(&tenant.to_be_bytes());
    }
    for slot in e.peers.iter().flat_map(|peer| &peer.slots) {
        hasher.write(&slot.identifier.to_be_bytes());
        hasher.write(&slot.frame_length.to_be_bytes());
        hasher.write(&[slot.age, u8::from(slot.pending)]);
    }
    hasher.finish()
}
