// A reader of traces. It holds the bytes of one record and is fed the trace in pieces, of any size: each call takes from the front of the piece what the
// record at hand still lacks, up to its end or the piece's.
ghost use Rattle.std.specs.Prelude.{◌≡◌, ◌++◌, ◌+◌, ◌≤◌, min, length};
ghost use Rattle.trace.specs.Reader.{bytes_of, Fed, record_most, header_at, header_end, record_at, record_end};

use crate::number::{
    HEADER_BYTES, LENGTH_AT, LETTERS, PACKET, PACKET_AT, PACKET_MAX, RECORD_MAX, TICK, VERSION,
    VERSION_AT,
};
use wire::field::get;

// What is held: the first `count` bytes. They stay when the header or a record is complete: `count` is set back to 0 before the next one is read.
// As it is: an array and a count, since there is no heap; any count may be handed in, so it has no invariant.
#[derive(Clone, Copy)]
pub struct Reader {
    pub held: [u8; RECORD_MAX],
    pub count: usize,
}

// A record that is complete. A packet's bytes are held, behind tag and length.
#[derive(Clone, Copy, Debug, PartialEq, Eq)]
pub enum Complete {
    Tick,
    Packet,
}

// No trace begins so, or no record.
#[derive(Clone, Copy, Debug, PartialEq, Eq)]
pub struct Broken;

impl Reader {
    // Nothing is held.
    pub fn start() -> Reader
        ensures { result.count ≡ 0 }
    {
        Reader {
            held: [0; RECORD_MAX],
            count: 0,
        }
    }

    // Takes bytes of the piece, until `want` are held or the piece is used up.
    fn fill(&mut self, piece: &mut &[u8], want: usize)
        requires { want ≤ record_most }
        ensures { Fed (min want (self.old.count + length piece.old.now)) self.old piece.old.now self.new piece.new.now }
    {
        if self.count >= want {
            return;
        }
        let n = (want - self.count).min(piece.len());
        let (taken, rest) = piece.split_at(n);
        self.held[self.count..self.count + n].copy_from_slice(taken);
        self.count += n;
        *piece = rest;
    }

    // Reads the trace's header, and says whether all of it is there.
    pub fn read_header(&mut self, piece: &mut &[u8]) -> Result<bool, Broken>
        ensures value { result ≡ header_at (bytes_of self.old ++ piece.old.now) }
        ensures fed { Fed (header_end (bytes_of self.old ++ piece.old.now)) self.old piece.old.now self.new piece.new.now }
    {
        self.fill(piece, HEADER_BYTES);
        if self.count < HEADER_BYTES {
            return Ok(false);
        }
        if get::<3>(&self.held, 0) != LETTERS {
            return Err(Broken);
        }
        if get::<2>(&self.held, VERSION_AT) != VERSION {
            return Err(Broken);
        }
        Ok(true)
    }

    // Reads a record. With `None` it is not complete yet, and the piece is used up.
    pub fn read_record(&mut self, piece: &mut &[u8]) -> Result<Option<Complete>, Broken>
        ensures value { result ≡ record_at (bytes_of self.old ++ piece.old.now) }
        ensures fed { Fed (record_end (bytes_of self.old ++ piece.old.now)) self.old piece.old.now self.new piece.new.now }
    {
        self.fill(piece, LENGTH_AT);
        if self.count < LENGTH_AT {
            return Ok(None);
        }
        match self.held[0] {
            TICK => return Ok(Some(Complete::Tick)),
            PACKET => {}
            _ => return Err(Broken),
        }
        self.fill(piece, PACKET_AT);
        if self.count < PACKET_AT {
            return Ok(None);
        }
        let length = get::<2>(&self.held, LENGTH_AT) as usize;
        if length > PACKET_MAX {
            return Err(Broken);
        }
        self.fill(piece, PACKET_AT + length);
        if self.count < PACKET_AT + length {
            return Ok(None);
        }
        Ok(Some(Complete::Packet))
    }
}
