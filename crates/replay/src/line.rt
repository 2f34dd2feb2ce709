// How the lines show answers (host/README.md, "The files"). Where a piece of text ends is kept as it is: on an output that has no room for a while, pieces are lost.
use detector::observe::{Observation, Observed};
use endpoint::answer::{ConfigRefusal, Packet, Place, WrapRefusal};
use image::answer::SaveRefusal;
use std::fmt;

// The code of an adding call, and the number of what was added.
#[derive(Clone, Copy)]
pub(crate) struct Added(pub Result<u16, ConfigRefusal>);

impl fmt::Display for Added {
    fn fmt<W: fmt::Write>(&self, f: &mut fmt::Formatter<W>) -> fmt::Result {
        match self.0 {
            Ok(number) => write!(f, "{} {number}", 0),
            Err(r) => write!(f, "{} -", r.code()),
        }
    }
}

// The code of a wrap, the length of its packet and how many segments there are.
#[derive(Clone, Copy)]
pub(crate) struct Wrapped(pub Result<Packet, WrapRefusal>);

impl fmt::Display for Wrapped {
    fn fmt<W: fmt::Write>(&self, f: &mut fmt::Formatter<W>) -> fmt::Result {
        match self.0 {
            Ok(packet) => write!(f, "0 {} {}", packet.length, packet.segments),
            Err(r) => write!(f, "{} 0 0", r.code()),
        }
    }
}

// The code of a save, and the image's length.
#[derive(Clone, Copy)]
pub(crate) struct Saved(pub Result<usize, SaveRefusal>);

impl fmt::Display for Saved {
    fn fmt<W: fmt::Write>(&self, f: &mut fmt::Formatter<W>) -> fmt::Result {
        match self.0 {
            Ok(length) => write!(f, "0 {length}"),
            Err(r) => write!(f, "{} 0", r.code()),
        }
    }
}

// The code of an observation, and of a duplicate the peer that was first.
#[derive(Clone, Copy)]
pub(crate) struct Seen(pub Observed);

impl fmt::Display for Seen {
    fn fmt<W: fmt::Write>(&self, f: &mut fmt::Formatter<W>) -> fmt::Result {
        let Observation { answer, .. } = Observation::from(self.0);
        match self.0 {
            Observed::Duplicate { first } => write!(f, "{answer} {first}"),
            _ => write!(f, "{answer} {}", "-"),
        }
    }
}

// Where a place lies, behind a space.
#[derive(Clone, Copy)]
pub(crate) struct Lies(pub Place);

impl fmt::Display for Lies {
    fn fmt<W: fmt::Write>(&self, f: &mut fmt::Formatter<W>) -> fmt::Result {
        let Place {
            start,
            length,
            in_memory,
        } = self.0;
        if in_memory {
            write!(f, " memory {start} {length}")
        } else {
            write!(f, " packet {start} {length}")
        }
    }
}

// Where the library cuts for a place: at its start, or, if the place does not fit (`-`), the empty part at the packet's start. No expected line has the third.
#[derive(Clone, Copy)]
pub(crate) struct Cut {
    pub place: Place,
    pub part: Place,
}

impl fmt::Display for Cut {
    fn fmt<W: fmt::Write>(&self, f: &mut fmt::Formatter<W>) -> fmt::Result {
        let nothing = Place {
            start: 0,
            length: 0,
            in_memory: false,
        };
        if self.part == self.place {
            write!(f, "{}", self.part.start)
        } else if self.part == nothing {
            write!(f, "-")
        } else {
            write!(f, "elsewhere")
        }
    }
}
