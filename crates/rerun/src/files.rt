// The files of the two arguments. A missing argument, and a file that cannot be opened, count as empty; standard error says so.
ghost use Rattle.std.specs.Prelude.{◌≡◌, length, IfOk, OnErr};
ghost use Rattle.io.specs.Counts.{IsPrefixLen};

use std::fmt::Display;
use std::io::{ErrorKind, Read};
use std::{io, thread};

// Says on standard error what failed, and why. If that fails too, there is nowhere left to say it.
pub(crate) fn tell<D: Display + Drop>(rt: &impl Eprint, what: &str, why: D) {
    let _ = eprintln!(rt; "{what}: {why}");
}

// Is a call that failed so to be made again: a signal came, or nothing is there yet?
pub(crate) fn is_passing(error: &io::Error) -> bool {
    matches!(error.kind(), ErrorKind::Interrupted | ErrorKind::WouldBlock)
}

// Reads some bytes, and says how many: 0 at the end. An error is the system's, and no bytes count then. Nothing says that a file is ready at last, so the
// tries are as many as no run uses up.
pub(crate) fn read_some(file: &mut impl Read, buf: &mut [u8]) -> io::Result<usize>
    ensures ok { IfOk result (λ n. IsPrefixLen n buf.new) }
    ensures err { OnErr result (length buf.new ≡ length buf.old) }
{
    for _ in 0..u64::MAX {
        match file.read(buf) {
            Err(error) if is_passing(&error) => thread::yield_now(),
            done => return done,
        }
    }
    file.read(buf)
}

// Reads as many bytes as there is room for, and says how many came; of a file that cannot be read, 0.
// As it is: a while: how far a turn goes is what the system says.
pub(crate) fn read_front(rt: &impl Eprint, file: &mut impl Read, buf: &mut [u8]) -> usize
    ensures { IsPrefixLen result buf.new }
{
    let mut done: usize = 0;
    while done < buf.len() {
        match read_some(file, &mut buf[done..]) {
            Ok(0) => return done,
            Ok(count) => done += count,
            Err(error) => {
                tell(rt, "rerun: settings", error);
                return 0;
            }
        }
    }
    done
}
