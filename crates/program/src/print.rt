// Standard output. A piece of text is written as it comes; what cannot be written is lost, and the program goes on.
// As it is: no `println!`: under std's printing there is more of C than `write`, which would be assumed too.
use std::fmt;

#[derive(Clone, Copy)]
pub struct Stdout;

impl fmt::Write for Stdout {
    fn write_str(&mut self, s: &str) -> fmt::Result {
        io::write_all(1, s.as_bytes());
        Ok(())
    }
}
