// How the program shows addresses, frames and answers.
use endpoint::answer::ConfigRefusal;
use endpoint::number::{NVGRE, STT, VXLAN};
use program::answer::Refused;
use std::net::Ipv4Addr;
use std::{fmt, str};

// As it is: by the number of the kind, as the adding calls take it.
pub(crate) fn kind_name(kind: u32) -> &'static str {
    match kind {
        VXLAN => "VXLAN",
        NVGRE => "NVGRE",
        STT => "STT",
        _ => "unknown",
    }
}

// The number of what was added, or why it was not.
#[derive(Drop)]
pub(crate) struct Added(pub Result<u16, ConfigRefusal>);

impl fmt::Display for Added {
    fn fmt<W: fmt::Write>(&self, f: &mut fmt::Formatter<W>) -> fmt::Result {
        match self.0 {
            Ok(number) => write!(f, "{number}"),
            Err(r) => {
                let code = r.code();
                write!(f, "refused with {}", Refused { code, offset: 0 })
            }
        }
    }
}

const DIGITS: [u8; 16] = *b"0123456789abcdef";

// A byte in hexadecimal: two digits, in one piece of text.
#[derive(Clone, Copy)]
struct Octet(u8);

impl fmt::Display for Octet {
    fn fmt<W: fmt::Write>(&self, f: &mut fmt::Formatter<W>) -> fmt::Result {
        let digits = [
            DIGITS[usize::from(self.0 / 16)],
            DIGITS[usize::from(self.0 % 16)],
        ];
        match str::from_utf8(&digits) {
            Ok(text) => write!(f, "{text}"),
            Err(_) => Ok(()),
        }
    }
}

// The bytes of a frame, in hexadecimal.
#[derive(Drop)]
pub(crate) struct Bytes<'a>(pub &'a [u8]);

impl fmt::Display for Bytes<'_> {
    fn fmt<W: fmt::Write>(&self, f: &mut fmt::Formatter<W>) -> fmt::Result {
        for byte in self.0 {
            write!(f, " {}", Octet(*byte))?;
        }
        Ok(())
    }
}

// A hardware address, by its number.
#[derive(Drop)]
pub(crate) struct Hardware(pub u64);

impl fmt::Display for Hardware {
    fn fmt<W: fmt::Write>(&self, f: &mut fmt::Formatter<W>) -> fmt::Result {
        let [_, _, a, b, c, d, e, g] = self.0.to_be_bytes();
        write!(
            f,
            "{}:{}:{}:{}:{}:{}",
            Octet(a),
            Octet(b),
            Octet(c),
            Octet(d),
            Octet(e),
            Octet(g)
        )
    }
}

// An address that two peers show to one tenant.
#[derive(Drop)]
pub(crate) struct Duplicate {
    pub tenant: u16,
    pub address: Hardware,
    pub first: Ipv4Addr,
    pub second: Ipv4Addr,
}

impl fmt::Display for Duplicate {
    fn fmt<W: fmt::Write>(&self, f: &mut fmt::Formatter<W>) -> fmt::Result {
        write!(
            f,
            "tenant {}: {} is shown by peers {} and {}",
            self.tenant, self.address, self.first, self.second
        )
    }
}
