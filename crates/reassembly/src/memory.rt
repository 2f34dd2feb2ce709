// The lent memory (document 01, "Reassembly memory"): slot k starts at byte k × 1,728, with 1,536 bytes of frame, then a map of 192 bytes.
// As it is: `k` and `n` are numbers by value with a bound: a type for each would be taken apart at each use.
// As it is: a slice with a `requires`, and no array: specs/Store.antt speaks of all of the memory lent, and each effect would have to be joined to the bytes
// behind.
ghost use Rattle.std.specs.Prelude.{◌≡◌, ◌+◌, ◌<◌, ◌≤◌, length};
ghost use Rattle.reassembly.specs.Base.{some_below, all_below};
ghost use Rattle.reassembly.specs.Store.{received_at, clear_at, put_at};

use crate::map;
use crate::number::{FRAME_BYTES, SLOT_BYTES};
use wire::copy::copy;

// Forgets what slot k received: all of its map. The frame's bytes stay.
#[tactic(auto, using(crate::proofs::Lent::cleared))]
pub(crate) fn clear(memory: &mut [u8], k: usize)
    requires { (k < 32) × (55296 ≤ length memory.old) }
    ensures { memory.new ≡ clear_at memory.old k }
{
    let start = k * SLOT_BYTES + FRAME_BYTES;
    map::clear(&mut memory[start..]);
}

// A segment's bytes go straight to their place in slot k, and their bits are set; nothing else changes.
pub(crate) fn put(memory: &mut [u8], k: usize, offset: usize, bytes: &[u8])
    requires { (k < 32) × (offset + length bytes.now ≤ 1532) × (55296 ≤ length memory.old) }
    ensures { memory.new ≡ put_at memory.old k offset bytes.now }
{
    let place = k * SLOT_BYTES + offset;
    let start = k * SLOT_BYTES + FRAME_BYTES;
    copy(bytes, &mut memory[place..]);
    map::set_bits(&mut memory[start..], offset, bytes.len());
}

// Is some byte of slot k's frame, among the n from offset on, received?
pub(crate) fn some_received(memory: &[u8], k: usize, offset: usize, n: usize) -> bool
    requires { (k < 32) × (offset + n ≤ 1532) × (55296 ≤ length memory.now) }
    ensures { result ≡ some_below n (λ i. received_at memory.now k (offset + i)) }
{
    let start = k * SLOT_BYTES + FRAME_BYTES;
    map::any_bit(&memory[start..], offset, n)
}

// Is every byte below n of slot k's frame received?
#[tactic(auto, using(crate::proofs::Lent::all_of))]
pub(crate) fn all_received(memory: &[u8], k: usize, n: usize) -> bool
    requires { (k < 32) × (n ≤ 1532) × (55296 ≤ length memory.now) }
    ensures { result ≡ all_below n (λ i. received_at memory.now k i) }
{
    let start = k * SLOT_BYTES + FRAME_BYTES;
    map::all_bits(&memory[start..], n)
}
