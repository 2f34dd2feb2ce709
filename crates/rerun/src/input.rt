// The trace, as far as it is read.
ghost use Rattle.std.specs.Prelude.{◌≡◌, ◌<◌, length};
ghost use Rattle.trace.specs.Reader.{bytes_of};
ghost use Rattle.rerun.specs.Standing.{Incomplete, Stepped};

use trace::reader::{Broken, Complete, Reader};

// Where the reader stands: in the header, behind it, or at a broken record, where nothing more is read.
#[derive(Clone, Copy, Debug, PartialEq, Eq)]
pub(crate) enum Phase {
    Header,
    Records,
    Broken,
}

#[derive(Clone, Copy)]
pub(crate) struct Input {
    pub reader: Reader,
    pub phase: Phase,
}

impl Input {
    // Reads on in a piece, and gives the record that is complete, if one is: it is held then.
    pub(crate) fn next(&mut self, piece: &mut &[u8]) -> Option<Complete>
        requires waits { Incomplete self.old.phase (bytes_of self.old.reader) }
        requires held_len { length (bytes_of self.old.reader) ≡ self.old.reader.count }
        requires piece_nonzero { 0 < length piece.old.now }
        ensures { Stepped self.old piece.old.now result self.new piece.new.now }
    {
        match self.phase {
            Phase::Header => {
                match self.reader.read_header(piece) {
                    Ok(true) => {
                        self.reader.count = 0;
                        self.phase = Phase::Records;
                    }
                    Ok(false) => {}
                    Err(Broken) => self.phase = Phase::Broken,
                }
                None
            }
            Phase::Records => match self.reader.read_record(piece) {
                Ok(complete) => complete,
                Err(Broken) => {
                    self.phase = Phase::Broken;
                    None
                }
            },
            Phase::Broken => {
                *piece = &[];
                None
            }
        }
    }
}
