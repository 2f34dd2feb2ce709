// The map of received bytes (document 01, "Reassembly memory"): frame byte i is received when bit i mod 8, lowest first, of map byte i div 8 is set.
// The map is handled a byte at a time, with masks at the two ends.
// As it is: a slice of 192 bytes or more, since no proof tied an array of them (`first_chunk_mut().unwrap()`, tried) to the memory that it is a part of.
ghost use Rattle.std.specs.Prelude.{◌≡◌, ◌++◌, ◌+◌, ◌-◌, ◌≤◌, ◌^◌, length, drop, replicate};
ghost use Rattle.reassembly.specs.Base.{some_below, all_below};
ghost use Rattle.reassembly.specs.Store.{set_bits, bit_at};

use crate::number::MAP_BYTES;

// The mask of bits lo up to, not including, hi of a byte. A bit is shifted in 32 bits, since hi may be 8.
pub(crate) fn mask(lo: usize, hi: usize) -> u8
    requires { (lo ≤ hi) × (hi ≤ 8) }
    ensures { result ≡ 2 ^ hi - 2 ^ lo }
{
    let above: u32 = 1 << hi;
    let below: u32 = 1 << lo;
    (above - below) as u8
}

// Forgets every bit of the map's 192 bytes.
pub(crate) fn clear(map: &mut [u8])
    requires { 192 ≤ length map.old }
    ensures { map.new ≡ replicate 192 0 ++ drop 192 map.old }
{
    map[..MAP_BYTES].fill(0);
}

// Sets the n bits from a on.
pub(crate) fn set_bits(map: &mut [u8], a: usize, n: usize)
    requires { (a + n ≤ 1532) × (192 ≤ length map.old) }
    ensures { map.new ≡ set_bits map.old 0 a n }
{
    let end = a + n;
    let first = a / 8;
    let last = end / 8;
    if first == last {
        map[first] |= mask(a % 8, end % 8);
        return;
    }
    map[first] |= mask(a % 8, 8);
    for byte in &mut map[first + 1..last] {
        *byte |= 0xFF;
    }
    map[last] |= mask(0, end % 8);
}

// Is any of the n bits from a on set? The bytes are gathered with no early exit, so that the loop is a few wide instructions.
pub(crate) fn any_bit(map: &[u8], a: usize, n: usize) -> bool
    requires { (a + n ≤ 1532) × (192 ≤ length map.now) }
    ensures { result ≡ some_below n (λ i. bit_at map.now 0 (a + i)) }
{
    let end = a + n;
    let first = a / 8;
    let last = end / 8;
    if first == last {
        return map[first] & mask(a % 8, end % 8) != 0;
    }
    let mut found = map[first] & mask(a % 8, 8);
    for byte in &map[first + 1..last] {
        found |= *byte;
    }
    (found | (map[last] & mask(0, end % 8))) != 0
}

// Are all bits below n set? Here too the bytes are gathered with no early exit.
pub(crate) fn all_bits(map: &[u8], n: usize) -> bool
    requires { (n ≤ 1532) × (192 ≤ length map.now) }
    ensures { result ≡ all_below n (λ i. bit_at map.now 0 i) }
{
    let last = n / 8;
    let mut kept: u8 = 0xFF;
    for byte in &map[..last] {
        kept &= *byte;
    }
    if kept != 0xFF {
        return false;
    }
    let rest = mask(0, n % 8);
    map[last] & rest == rest
}
