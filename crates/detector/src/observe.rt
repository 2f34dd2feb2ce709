// What observing a frame answers.
ghost use Rattle.std.specs.Prelude.{◌≡◌};
ghost use Rattle.detector.specs.Detector.{observation_of};

use crate::number::{DUPLICATE, FULL, KNOWN, NEW, NONE};

#[derive(Clone, Copy, Debug, PartialEq, Eq)]
pub enum Observed {
    // tenant and address were not listed; now they are, with this peer
    New,
    // they are listed with this peer
    Known,
    // they are listed with another peer, the first that showed them
    Duplicate { first: u16 },
    // they are not listed, and there is no room
    Full,
}

// The same as C gets it: a number, and of a duplicate the peer that was first; NONE in every other.
// As it is: the C interface; fields, order and layout stay.
#[repr(C)]
#[derive(Clone, Copy)]
pub struct Observation {
    pub answer: u8,
    pub peer: u16,
}

impl From<Observed> for Observation {
    ghost from_gives = { λ seen flat. flat ≡ observation_of seen };

    fn from(seen: Observed) -> Observation {
        let (answer, peer) = match seen {
            Observed::New => (NEW, NONE),
            Observed::Known => (KNOWN, NONE),
            Observed::Duplicate { first } => (DUPLICATE, first),
            Observed::Full => (FULL, NONE),
        };
        Observation { answer, peer }
    }
}
