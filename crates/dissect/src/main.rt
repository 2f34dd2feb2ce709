// Writes what the readers of `wire` make of some packets, a line for each.
#![tactic(auto)]

use program::answer::Refused;
use program::print::Stdout;
use std::fmt::Write;
use std::net::Ipv4Addr;
use wire::carriage::{Carried, Tunnel};
use wire::ipv4::Ipv4;
use wire::number::{KIND_NVGRE, KIND_VXLAN};
use wire::refusal::Refusal;

// The port on which STT is expected.
const STT_PORT: u16 = 7471;

// The packets, by their names: four that carry a frame or a segment, and five that a reader refuses.
const PACKETS: [(&str, &[u8]); 9] = [
    (
        "worked case 3",
        b"\x45\x00\x00\x32\x00\x00\x40\x00\x40\x11\x26\xb9\x0a\x00\x00\x01\x0a\x00\x00\x02\
          \xcc\xb8\x12\xb5\x00\x1e\x00\x00\
          \x08\x00\x00\x00\x00\x00\x16\x00\
          \x02\x00\x00\x00\x00\x02\x02\x00\x00\x00\x00\x01\x88\xb5",
    ),
    (
        "worked case 4",
        b"\x45\x00\x00\x2a\x00\x00\x40\x00\x40\x2f\x26\xa3\x0a\x00\x00\x01\x0a\x00\x00\x02\
          \x20\x00\x65\x58\x00\x10\x00\x00\
          \x02\x00\x00\x00\x00\x02\x02\x00\x00\x00\x00\x01\x88\xb5",
    ),
    (
        "options and trailing bytes",
        b"\x46\x00\x00\x36\x00\x00\x40\x00\x40\x11\x23\xb4\x0a\x00\x00\x01\x0a\x00\x00\x02\
          \x01\x01\x01\x00\
          \xcc\xb8\x12\xb5\x00\x1e\x00\x00\
          \x08\x00\x00\x00\x00\x00\x16\x00\
          \x02\x00\x00\x00\x00\x02\x02\x00\x00\x00\x00\x01\x88\xb5\
          \xff\xff\xff",
    ),
    (
        "STT segment",
        b"\x45\x00\x00\x48\x00\x00\x40\x00\x40\x06\x26\xae\x0a\x00\x00\x01\x0a\x00\x00\x02\
          \xcc\xb8\x1d\x2f\x00\x20\x00\x00\x00\x00\x00\x01\x50\x18\x00\x00\x24\xe2\x00\x00\
          \x00\x00\x00\x00\x00\x00\x00\x00\x00\x00\x00\x00\x00\x00\x00\x07\x00\x00\
          \x02\x00\x00\x00\x00\x02\x02\x00\x00\x00\x00\x01\x88\xb5",
    ),
    (
        "STT, TCP checksum 0",
        b"\x45\x00\x00\x48\x00\x00\x40\x00\x40\x06\x26\xae\x0a\x00\x00\x01\x0a\x00\x00\x02\
          \xcc\xb8\x1d\x2f\x00\x20\x00\x00\x00\x00\x00\x01\x50\x18\x00\x00\x00\x00\x00\x00\
          \x00\x00\x00\x00\x00\x00\x00\x00\x00\x00\x00\x00\x00\x00\x00\x07\x00\x00\
          \x02\x00\x00\x00\x00\x02\x02\x00\x00\x00\x00\x01\x88\xb5",
    ),
    (
        "a fragment",
        b"\x45\x00\x00\x32\x00\x00\x20\x00\x40\x11\x46\xb9\x0a\x00\x00\x01\x0a\x00\x00\x02\
          \xcc\xb8\x12\xb5\x00\x1e\x00\x00\
          \x08\x00\x00\x00\x00\x00\x16\x00\
          \x02\x00\x00\x00\x00\x02\x02\x00\x00\x00\x00\x01\x88\xb5",
    ),
    (
        "damaged address",
        b"\x45\x00\x00\x32\x00\x00\x40\x00\x40\x11\x26\xb9\x0a\x00\x00\x00\x0a\x00\x00\x02\
          \xcc\xb8\x12\xb5\x00\x1e\x00\x00\
          \x08\x00\x00\x00\x00\x00\x16\x00\
          \x02\x00\x00\x00\x00\x02\x02\x00\x00\x00\x00\x01\x88\xb5",
    ),
    (
        "VXLAN flag missing",
        b"\x45\x00\x00\x32\x00\x00\x40\x00\x40\x11\x26\xb9\x0a\x00\x00\x01\x0a\x00\x00\x02\
          \xcc\xb8\x12\xb5\x00\x1e\x00\x00\
          \x00\x00\x00\x00\x00\x00\x16\x00\
          \x02\x00\x00\x00\x00\x02\x02\x00\x00\x00\x00\x01\x88\xb5",
    ),
    (
        "first 19 bytes",
        b"\x45\x00\x00\x32\x00\x00\x40\x00\x40\x11\x26\xb9\x0a\x00\x00\x01\x0a\x00\x00",
    ),
];

// A refusal, by the documents' number. The IP payload begins at `start` of the packet.
fn refused(start: u8, r: Refusal) -> Refused {
    Refused {
        code: r.code(),
        offset: u64::from(r.offset(start)),
    }
}

// As it is: rack has the same of the endpoint's numbers, and the crate that both share knows neither.
fn kind(tunnel: Tunnel) -> &'static str {
    match tunnel.kind {
        KIND_VXLAN => "VXLAN",
        KIND_NVGRE => "NVGRE",
        _ => "unknown",
    }
}

// The frame that a packet has from `at` on, and whether it keeps the inner frame's rule.
fn show_frame(out: &mut impl Write, at: usize, frame: &[u8]) {
    let _ = write!(out, ", frame of {} bytes at {at}", frame.len());
    let _ = match wire::frame::read(frame) {
        Ok(()) => writeln!(out),
        Err(r) => writeln!(out, ": refused with {}", refused(0, r)),
    };
}

// Reads a packet from the outside in. An STT segment tells no network: the frame's first bytes do.
#[tactic(auto, using(wire::proofs::Laws::Ipv4::ipv4_bounds, wire::proofs::Laws::Ipv4::ipv4_start, wire::proofs::Laws::Carriage::tunnel_within))]
fn show(out: &mut impl Write, packet: &[u8]) {
    let header = match wire::ipv4::read(packet) {
        Ok(header) => header,
        Err(r) => {
            let _ = writeln!(out, "refused with {}", refused(0, r));
            return;
        }
    };
    let Ipv4 {
        start,
        end,
        source,
        destination,
        protocol,
    } = header;
    let _ = write!(
        out,
        "{} to {}, ",
        Ipv4Addr::from(source),
        Ipv4Addr::from(destination)
    );
    let payload = &packet[start..end];
    match wire::carriage::read(protocol, source, destination, STT_PORT, payload) {
        Err(r) => {
            let _ = writeln!(out, "refused with {}", refused(start as u8, r));
        }
        Ok(Carried::Segment(g)) => {
            let _ = writeln!(
                out,
                "STT segment of frame {}, bytes from {} of {}",
                g.identifier, g.offset, g.frame_length
            );
        }
        Ok(Carried::Tunnel(t)) => {
            let _ = write!(out, "{} network {}", kind(t), t.network);
            show_frame(out, start + t.start, &payload[t.start..]);
        }
    }
}

fn main() {
    let mut out = Stdout;
    for (name, packet) in PACKETS {
        let _ = write!(out, "{name}: ");
        show(&mut out, packet);
    }
}
