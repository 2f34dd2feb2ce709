// Makes the calls of a recorded run on an endpoint and a detector, and writes a line for each answer. host/README.md has the form of both. The lines that it is
// held to are the answers of host/reference, a second implementation, written from the papers alone.
#![tactic(auto)]

mod call;
mod hash;
mod line;
mod record;

use call::Run;
use program::print::Stdout;
use record::{Broken, PAYLOAD_MAX, Record};
use std::fmt::Write;

// Nothing says that the input ends, so the turns are counted: no run uses up so many.
fn run(out: &mut impl Write) -> Result<(), Broken> {
    let mut room = [0; PAYLOAD_MAX];
    let mut run = Run::new();
    for _ in 0..u64::MAX {
        let Some(record) = Record::read(&mut room)? else {
            break;
        };
        run.make(out, record)?;
    }
    Ok(())
}

// A record that breaks the form ends the run with a line that no answer has.
fn main() {
    let mut out = Stdout;
    if run(&mut out).is_err() {
        let _ = writeln!(out, "broken record");
    }
}
