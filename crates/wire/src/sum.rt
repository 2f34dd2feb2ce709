// The ones' complement sum (RFC 1071).
// As it is: a `requires` on the length: no slice has a type of at most 65,535 bytes, and each caller has it from a field of 16 bits or a test of its own.
ghost use Rattle.std.specs.Prelude.{◌≡◌, ◌+◌, ◌<◌, ◌≤◌, ◌++◌, length};
ghost use Rattle.wire.specs.Sum.{total, ones, pseudo};

use crate::be::be;
use crate::ones::fold;
use crate::wide::wide;

// The words of the last bytes, fewer than four: behind an odd one stands a byte 0.
fn tail(s: &[u8]) -> u64
    requires { length s.now < 4 }
    ensures value { result ≡ total s.now }
    ensures bound { result < 131072 }
{
    match s {
        [] => 0,
        [a] => 256 * *a as u64,
        [a, b] => 256 * *a as u64 + *b as u64,
        [a, b, c, ..] => 256 * (*a as u64 + *c as u64) + *b as u64,
    }
}

// The sum of a number and the 16-bit words of s, for headers: two words at a step, in the wire's own byte order, so that the sum of a header that has just been
// put together needs no byte exchanged. The contract is the folded sum, so that callers do not know the loop.
pub(crate) fn sum(first: u64, s: &[u8]) -> u16
    requires { (first ≤ 1048575) × (length s.now ≤ 65535) }
    ensures { result ≡ ones (first + total s.now) }
{
    let words = s.len() / 4;
    let mut acc = first;
    for i in 0..words {
        acc += be::<4>(s, 4 * i);
    }
    fold(acc + tail(&s[4 * words..]))
}

// The sum of s with the pseudo header in front of it (RFC 768; RFC 793, 3.1). The bytes of s are added in the other byte order; the pseudo header joins them
// there, a byte higher, and the two bytes of the sum are exchanged at the end.
pub(crate) fn sum_behind(source: u32, destination: u32, protocol: u8, s: &[u8]) -> u16
    requires { length s.now ≤ 65535 }
    ensures { result ≡ ones (total (pseudo source destination protocol (length s.now) ++ s.now)) }
{
    let first = source as u64 + destination as u64 + protocol as u64 + s.len() as u64;
    fold(wide(256 * first, s)).swap_bytes()
}
