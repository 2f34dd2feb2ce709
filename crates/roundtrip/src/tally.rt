// What a binding and an MTU come to.
use program::number::Hasher;
use std::fmt;

// How many packets were written and a sum over their bytes, how many frames came out equal, and how many wraps were refused.
#[derive(Drop)]
pub(crate) struct Tally {
    packets: u32,
    sum: Hasher,
    equal: u32,
    refused: u32,
}

impl Tally {
    pub(crate) fn new() -> Tally {
        Tally {
            packets: 0,
            sum: Hasher::new(),
            equal: 0,
            refused: 0,
        }
    }

    pub(crate) fn count_packet(&mut self, packet: &[u8]) {
        self.packets = self.packets.saturating_add(1);
        self.sum.write(packet);
    }

    pub(crate) fn count_equal(&mut self) {
        self.equal = self.equal.saturating_add(1);
    }

    pub(crate) fn count_refused(&mut self) {
        self.refused = self.refused.saturating_add(1);
    }
}

impl fmt::Display for Tally {
    fn fmt<W: fmt::Write>(&self, f: &mut fmt::Formatter<W>) -> fmt::Result {
        write!(
            f,
            " packets {} sum {} equal {} refused {}",
            self.packets,
            self.sum.finish(),
            self.equal,
            self.refused
        )
    }
}
