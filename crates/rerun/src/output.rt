// Standard output. A reader that is slow gets every line, and one that is gone does not go unnoticed.
ghost use Rattle.std.specs.Prelude.{◌≤◌, length, IfOk};

use crate::files::{is_passing, tell};
use std::io::ErrorKind;
use std::{io, thread};

// Writes some bytes, and says how many.
// As it is: the loops of files.rt again, since `Read` and `Print` share no trait.
fn write_some(rt: &impl Print, text: &[u8]) -> io::Result<usize>
    ensures { IfOk result (λ n. n ≤ length text.now) }
{
    for _ in 0..u64::MAX {
        match rt.write_some(text) {
            Err(error) if is_passing(&error) => thread::yield_now(),
            done => return done,
        }
    }
    rt.write_some(text)
}

// Writes all of it, or says on standard error why not.
// As it is: a while: how far a turn goes is what the system says.
pub(crate) fn write(rt: &(impl Print + Eprint), text: &[u8]) -> bool {
    let mut done: usize = 0;
    while done < text.len() {
        match write_some(rt, &text[done..]) {
            Ok(0) => {
                tell(rt, "rerun: standard output", ErrorKind::WriteZero);
                return false;
            }
            Ok(count) => done += count,
            Err(error) => {
                tell(rt, "rerun: standard output", error);
                return false;
            }
        }
    }
    true
}
