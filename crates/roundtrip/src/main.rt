// Wraps a frame of every size from 14 to 1,514 bytes, for each kind and three MTUs, has a second endpoint unwrap the packets in another order, and writes a
// line for each kind and MTU: how many packets were written, a sum over all their bytes, how many frames came out equal, and how many were refused (answer 22).
// The lines that it is held to are made by host/reference.
#![tactic(auto)]

mod frame;
mod link;
mod tally;

use endpoint::number::{MTU_MAX, MTU_MIN, NVGRE, STT, VXLAN};
use frame::{FRAME_MAX, FRAME_MIN, Frame};
use link::{Link, PACKET_MAX};
use program::print::Stdout;
use reassembly::number::MEMORY_BYTES;
use std::fmt::Write;
use tally::Tally;

// A frame of every size, for one binding and MTU.
fn carry_all(mtu: u32, binding: u16, memory: &mut [u8], output: &mut [u8]) -> Tally {
    let mut link = Link::new(mtu);
    let mut tally = Tally::new();
    for size in FRAME_MIN..=FRAME_MAX {
        let frame = Frame::new(binding, size);
        link.carry(&frame, &mut tally, memory, output);
    }
    tally
}

// Every MTU and kind, a line each. The memory may contain anything at first: here no byte of it is 0.
fn carry_kinds(out: &mut impl Write) {
    let mut memory = [0xA5; MEMORY_BYTES];
    let mut output = [0; PACKET_MAX];
    for mtu in [MTU_MIN, 1500, MTU_MAX] {
        for (binding, kind) in [(0, VXLAN), (1, NVGRE), (2, STT)] {
            let tally = carry_all(mtu, binding, &mut memory, &mut output);
            let _ = writeln!(out, "mtu {mtu} kind {kind}{tally}");
        }
    }
}

fn main() {
    carry_kinds(&mut Stdout);
}
