// Big-endian numbers.
ghost use Rattle.std.specs.Prelude.{◌≡◌, ◌+◌, ◌^◌, ◌<◌, ◌≤◌, length};
ghost use Rattle.wire.specs.Bytes.{be_at};

// The number in N bytes of s, from a place on. They are added from the last one up: of this form the compiler makes one load, at any width.
pub(crate) fn be<const N: usize>(s: &[u8], at: usize) -> u64
    requires { (N ≤ 8) × (at + N ≤ length s.now) }
    ensures value { result ≡ be_at s.now at N }
    ensures bound { result < 256 ^ N }
{
    let mut x: u64 = 0;
    for i in 0..N {
        x += (s[at + (N - 1 - i)] as u64) << (8 * i);
    }
    x
}
