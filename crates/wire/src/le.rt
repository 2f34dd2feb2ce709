// Little-endian numbers: the order of the processor that the library is compiled for, so that each is one load.
ghost use Rattle.std.specs.Prelude.{◌≡◌, ◌+◌, ◌≤◌, length};
ghost use Rattle.wire.specs.Sum.{le_at};

// The number in N bytes of s, from a place on.
pub(crate) fn le<const N: usize>(s: &[u8], at: usize) -> u64
    requires { (N ≤ 8) × (at + N ≤ length s.now) }
    ensures { result ≡ le_at s.now at N }
{
    let mut x: u64 = 0;
    for i in 0..N {
        x += (s[at + i] as u64) << (8 * i);
    }
    x
}
