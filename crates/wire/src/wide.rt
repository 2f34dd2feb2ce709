// The bytes of a range added up as little-endian words of 64 bits, the processor's own: a sum of words whose bytes are exchanged is the sum with its bytes
// exchanged (RFC 1071, 2B), and words of any even number of bytes may be added (2C). Each contract says that what is added, with the rest that is still to
// be added, folds to the same before and after.
ghost use Rattle.std.specs.Prelude.{◌≡◌, ◌+◌, ◌*◌, ◌%◌, ◌<◌, ◌≤◌, length};
ghost use Rattle.wire.specs.Sum.{with_rest, blocks};

use crate::le::le;
use crate::ones::Accumulator;

// SIZE bytes by words of 8: a chain in which each addition takes the carry of the one before. As a call, 64 bytes would take nine instructions more.
#[inline(always)]
fn words<const SIZE: usize>(acc: Accumulator, s: &[u8], at: usize) -> Accumulator
    requires { (SIZE % 8 ≡ 0) × (at + SIZE ≤ length s.now) }
    ensures { with_rest result s.now (at + SIZE) ≡ with_rest acc s.now at }
{
    let mut sum = acc;
    for k in 0..SIZE / 8 {
        sum = sum.add(le::<8>(s, at + 8 * k));
    }
    sum
}

// Blocks of 128 bytes, in two sums, so that neither chain waits for the other.
fn rows(first: u64, s: &[u8]) -> u64
    ensures { with_rest result s.now (blocks 128 s.now) ≡ with_rest first s.now 0 }
{
    let mut a = first;
    let mut b: u64 = 0;
    for i in 0..s.len() / 128 {
        a = words::<64>(Accumulator::open(a), s, 128 * i).close();
        b = words::<64>(Accumulator::open(b), s, 128 * i + 64).close();
    }
    Accumulator::open(a).add(b).close()
}

// What is left then, by the binary digits of its length: 64 bytes if there are as many, then 32, and so on down to two.
fn digit<const SIZE: usize>(acc: u64, s: &[u8]) -> u64
    requires { (0 < SIZE) × (SIZE ≤ 64) × (SIZE % 2 ≡ 0) × (8 ≤ SIZE → SIZE % 8 ≡ 0) }
    ensures { with_rest result s.now (blocks SIZE s.now) ≡ with_rest acc s.now (blocks (2 * SIZE) s.now) }
{
    let left = s.len() % (2 * SIZE);
    if left < SIZE {
        return acc;
    }
    let at = s.len() - left;
    if SIZE < 8 {
        return Accumulator::open(le::<SIZE>(s, at)).add(acc).close();
    }
    words::<SIZE>(Accumulator::open(acc), s, at).close()
}

// An odd last byte.
fn odd(acc: u64, s: &[u8]) -> u64
    ensures { with_rest result s.now (blocks 1 s.now) ≡ with_rest acc s.now (blocks 2 s.now) }
{
    if s.len() % 2 == 0 {
        return acc;
    }
    let last = s[s.len() - 1];
    Accumulator::open(acc).add(last as u64).close()
}

// A number that folds to what the first and all the bytes do.
pub(crate) fn wide(first: u64, s: &[u8]) -> u64
    ensures { with_rest result s.now (blocks 1 s.now) ≡ with_rest first s.now 0 }
{
    let blocks = digit::<32>(digit::<64>(rows(first, s), s), s);
    let words = digit::<8>(digit::<16>(blocks, s), s);
    odd(digit::<2>(digit::<4>(words, s), s), s)
}
