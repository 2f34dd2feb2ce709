// How answers are shown, in the words of include/niulassenc.h: one answer has one text everywhere.
use std::fmt;

// By an answer's number. No answer has the number 11.
const TEXTS: [&str; 30] = [
    "done",
    "segment received, frame not yet complete",
    "reassembly memory too small",
    "not an IPv4 packet, or cut short",
    "IPv4 header checksum wrong",
    "IPv4 fragment",
    "not for our address",
    "sender is not a listed peer",
    "not VXLAN, NVGRE or STT",
    "UDP, GRE or TCP header broken",
    "UDP or TCP checksum wrong",
    UNKNOWN,
    "no binding for this network of the peer",
    "inner frame too short, too long or tagged",
    "segment empty or outside its frame",
    "identifier pending with another frame length",
    "segment received already",
    "the peer's slots are all taken",
    "setting or binding out of range",
    "already listed",
    "no room for another peer or binding",
    "output too short",
    "packet would exceed the MTU",
    "no such binding or segment",
    "not a good settings image",
    "VXLAN flag missing",
    "GRE flags or version wrong",
    "GRE protocol type wrong",
    "STT version wrong",
    "STT checksum flags both set on a TCP or UDP frame",
];

const UNKNOWN: &str = "unknown code";

// An answer by its number, shown as its text.
#[derive(Clone, Copy)]
pub struct Answer(pub u8);

impl fmt::Display for Answer {
    fn fmt<W: fmt::Write>(&self, f: &mut fmt::Formatter<W>) -> fmt::Result {
        let text = TEXTS.get(usize::from(self.0)).copied().unwrap_or(UNKNOWN);
        write!(f, "{text}")
    }
}

// A refusal by its number, shown with its text and the byte that it names: 25 to 27 name one of the packet, 28 and 29 one of the STT frame, the others none.
#[derive(Clone, Copy)]
pub struct Refused {
    pub code: u8,
    pub offset: u64,
}

impl fmt::Display for Refused {
    fn fmt<W: fmt::Write>(&self, f: &mut fmt::Formatter<W>) -> fmt::Result {
        let Refused { code, offset } = *self;
        write!(f, "{code}, {}", Answer(code))?;
        // As it is: by number: the programs show answers of several crates, and the documents' number is what these share.
        match code {
            0..25 => Ok(()),
            25..28 => write!(f, ", at byte {offset} of the packet"),
            _ => write!(f, ", at byte {offset} of the STT frame"),
        }
    }
}
