// The hash of the test runs and the generator of their contents, both modulo 2^32.
ghost use Rattle.std.specs.Prelude.{◌≡◌, ◌%◌, ◌^◌, ℕ};
ghost use Rattle.program.specs.Hash.{hashed};

use std::marker::Model;

// The lowest 32 bits of a number.
fn low32(n: u64) -> u32
    ensures { result ≡ n % 2 ^ 32 }
{
    (n % 0x100000000) as u32
}

// Fills a slice from a seed. The generator goes from x to 1,103,515,245 x + 12,345, and each byte is bits 16 to 23 of its next state.
pub fn fill(s: &mut [u8], seed: u64) {
    let mut x = low32(seed);
    for byte in s.iter_mut() {
        x = x.wrapping_mul(1103515245).wrapping_add(12345);
        *byte = x.to_be_bytes()[1];
    }
}

// A hash in the making: h := 0, then for each byte h := 31 h + byte + 1. Contracts see the number.
#[derive(Drop)]
pub struct Hasher {
    hash: u32,
}

impl Model for Hasher {
    ghost Value = { ℕ };

    ghost view = { λ h. h.hash };
}

impl Hasher {
    pub fn new() -> Hasher
        ensures { result ≡ 0 }
    {
        Hasher { hash: 0 }
    }

    pub fn write(&mut self, bytes: &[u8])
        ensures { self.new ≡ hashed self.old bytes.now }
    {
        self.hash = bytes.iter().fold(self.hash, |h, byte| {
            h.wrapping_mul(31)
                .wrapping_add(u32::from(*byte))
                .wrapping_add(1)
        });
    }

    pub fn finish(&self) -> u32
        ensures { result ≡ self.now }
    {
        self.hash
    }
}

// The hash of a slice behind what has the hash `first`; alone: behind 0.
pub fn hash(first: u64, bytes: &[u8]) -> u64
    ensures { result ≡ hashed first bytes.now }
{
    if bytes.is_empty() {
        return first;
    }
    let mut hasher = Hasher { hash: low32(first) };
    hasher.write(bytes);
    u64::from(hasher.finish())
}
