// Ones' complement addition in machine words (RFC 1071, 2): what overflows a word comes around and is added to it again.
ghost use Rattle.std.specs.Prelude.{◌≡◌, ℕ, ◌+◌, ◌^◌, ◌<◌};
ghost use Rattle.wire.specs.Sum.{ones, end_around};

use std::marker::Model;

// A sum in 64 bits, and the carry that is still to be added to it: contracts see the number that both make.
#[derive(Drop)]
pub(crate) struct Accumulator {
    low: u64,
    carry: u64,
}

impl Model for Accumulator {
    ghost Value = { ℕ };

    ghost view = { λ acc. acc.low + acc.carry };

    ghost invariant = { λ acc. acc.low + acc.carry < 2 ^ 64 };
}

impl Accumulator {
    pub(crate) fn open(n: u64) -> Accumulator
        ensures { result ≡ n }
    {
        Accumulator { low: n, carry: 0 }
    }

    // At most one of the two additions overflows. The compiler makes one add-with-carry of both if `|` joins their carries, and of no other form tried.
    pub(crate) fn add(self, word: u64) -> Accumulator
        ensures { result ≡ end_around (2 ^ 64) (self + word) }
    {
        let first = self.low.wrapping_add(word);
        let low = first.wrapping_add(self.carry);
        Accumulator {
            low,
            carry: ((first < word) as u64) | ((low < first) as u64),
        }
    }

    pub(crate) fn close(self) -> u64
        ensures { result ≡ self }
    {
        self.low + self.carry
    }
}

// n folded to 16 bits by end-around carries: its halves are added, and the halves of that. A number and itself with its halves exchanged add up to the sum of
// the halves in the upper half, with the carry of the lower one.
pub(crate) fn fold(n: u64) -> u16
    ensures { result ≡ ones n }
{
    let x = (n.wrapping_add(n.rotate_left(32)) >> 32) as u32;
    (x.wrapping_add(x.rotate_left(16)) >> 16) as u16
}
