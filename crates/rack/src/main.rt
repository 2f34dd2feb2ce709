// A demonstration: one endpoint with two peers, a network of each kind, and what becomes of fourteen packets. The boards are clones: all frames have the same
// addresses. Three go to a tenant each, and none of these sees the others; when a second peer shows the address to one of the tenants, the detector says so.
#![tactic(auto)]

mod packets;
mod report;

use detector::detector::Detector;
use detector::observe::Observed;
use detector::source::source;
use endpoint::answer::{Received, Target};
use endpoint::config::Endpoint;
use endpoint::number::{NVGRE, STT, VXLAN};
use endpoint::view::view;
use packets::PACKETS;
use program::answer::{Answer, Refused};
use program::print::Stdout;
use reassembly::number::MEMORY_BYTES;
use report::{Added, Bytes, Duplicate, Hardware, kind_name};
use std::fmt::Write;
use std::net::Ipv4Addr;

// Our address and the peers': 10.0.0.1, 10.0.0.2 and 10.0.0.3.
const OWN: u32 = 0x0a000001;

const PEERS: [u32; 2] = [0x0a000002, 0x0a000003];

const STT_PORT: u32 = 7471;

const MTU: u32 = 1500;

// The networks, each with its peer, its kind and its tenant. Peer 0 has a VXLAN and an STT network, peer 1 an NVGRE and a VXLAN network. The two VXLAN
// networks are one tenant's.
const NETWORKS: [(u32, u32, u64, u32); 4] = [
    (0, VXLAN, 22, 7),
    (1, NVGRE, 4096, 8),
    (0, STT, 7, 9),
    (1, VXLAN, 23, 7),
];

// What the program keeps: an endpoint, and a detector of duplicate addresses beside it.
#[derive(Drop)]
struct Rack {
    endpoint: Endpoint,
    detector: Detector,
}

impl Rack {
    fn new() -> Rack {
        Rack {
            endpoint: Endpoint::start(OWN, STT_PORT, MTU).endpoint,
            detector: Detector::start(),
        }
    }

    // Receives a packet and reports what became of it. A delivered frame is observed.
    fn receive(&mut self, out: &mut impl Write, packet: &[u8], memory: &mut [u8]) {
        match self.endpoint.receive(packet, memory) {
            Ok(Received::Delivered(target, place)) => {
                let frame = view(packet, memory, place);
                let _ = writeln!(
                    out,
                    "tenant {}, frame of {} bytes:{}",
                    target.tenant,
                    frame.len(),
                    Bytes(frame)
                );
                if let Some(duplicate) = self.observe(target, frame) {
                    let _ = writeln!(out, "{duplicate}");
                }
            }
            Ok(Received::Pending) => {
                let _ = writeln!(out, "{}", Answer(1));
            }
            Err(d) => {
                let _ = writeln!(
                    out,
                    "dropped with {}",
                    Refused {
                        code: d.code(),
                        offset: u64::from(d.offset())
                    }
                );
            }
        }
    }

    // Observes a frame of a binding with the detector: the binding's owner is the peer that it came from.
    fn observe(&mut self, target: Target, frame: &[u8]) -> Option<Duplicate> {
        let owner = *self.endpoint.owners.get(usize::from(target.binding))?;
        let peer = u16::from(owner);
        let address = source(frame);
        let Observed::Duplicate { first } = self.detector.observe(target.tenant, peer, address)
        else {
            return None;
        };
        Some(Duplicate {
            tenant: target.tenant,
            address: Hardware(address),
            first: self.peer(first)?,
            second: self.peer(peer)?,
        })
    }

    // The address of a peer, by its number.
    fn peer(&self, number: u16) -> Option<Ipv4Addr> {
        let address = self.endpoint.addresses.get(usize::from(number))?;
        Some(Ipv4Addr::from(*address))
    }
}

fn main() {
    let mut out = Stdout;
    let _ = writeln!(
        out,
        "endpoint {}, STT on port {STT_PORT}",
        Ipv4Addr::from(OWN)
    );
    let mut rack = Rack::new();
    for address in PEERS {
        let added = Added(rack.endpoint.add_peer(address));
        let _ = writeln!(out, "peer {added}: {}", Ipv4Addr::from(address));
    }
    for (peer, kind, network, tenant) in NETWORKS {
        let added = Added(rack.endpoint.add_binding(peer, kind, network, tenant));
        let _ = writeln!(
            out,
            "binding {added}: {} network {network} of peer {peer} is tenant {tenant}",
            kind_name(kind)
        );
    }
    let mut memory = [0; MEMORY_BYTES];
    for (name, packet) in PACKETS {
        let _ = write!(out, "{name}: ");
        rack.receive(&mut out, packet, &mut memory);
    }
}
