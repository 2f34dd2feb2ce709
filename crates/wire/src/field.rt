// Big-endian numbers for the crates above, of N bytes, 8 at most, at any place of any bytes: one that does not lie in the bytes whole reads as 0, and is not
// written.
ghost use Rattle.std.specs.Prelude.{◌≡◌, ◌+◌, ◌^◌, ◌<◌, ◌≤◌, nat_le};
ghost use Rattle.wire.specs.Bytes.{be};
ghost use Rattle.wire.specs.Field.{field, entered};

use crate::be::be;
use crate::put::put;

// Do n bytes from a place on lie in so many?
fn lies(length: usize, at: usize, n: usize) -> bool
    ensures { result ≡ nat_le (at + n) length }
{
    n <= length && at <= length - n
}

pub fn get<const N: usize>(s: &[u8], at: usize) -> u64
    ensures value { N ≤ 8 → result ≡ field s.now at N }
    ensures bound { result < 256 ^ N }
{
    if N > 8 || !lies(s.len(), at, N) {
        return 0;
    }
    be::<N>(s, at)
}

// Of a larger x the lowest N bytes are written.
pub fn set<const N: usize>(out: &mut [u8], at: usize, x: u64)
    ensures { N ≤ 8 → out.new ≡ entered out.old at (be N x) }
{
    if N > 8 || !lies(out.len(), at, N) {
        return;
    }
    put(out, at, &x.to_be_bytes()[8 - N..]);
}
