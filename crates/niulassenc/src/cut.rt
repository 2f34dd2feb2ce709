// Which bytes a place names, by numbers alone: a caller adds the pointer.
ghost use Rattle.std.specs.Prelude.{◌≡◌};
ghost use Rattle.niulassenc.specs.Cut.{cut_at};

use endpoint::answer::Place;
use endpoint::view;

// The part of the packet or of the memory, of these lengths, that the place names: the one that a view of it gives (`ViewRule`).
pub fn niulassenc_cut(
    packet_length: usize,
    memory_length: usize,
    start: usize,
    length: usize,
    in_memory: bool,
) -> Place
    ensures { result ≡ cut_at packet_length memory_length start length in_memory }
{
    let place = Place {
        start: start,
        length: length,
        in_memory: in_memory,
    };
    view::cut(packet_length, memory_length, place)
}
