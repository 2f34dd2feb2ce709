// The view of a delivered frame (document 01, "Reassembly memory", its last paragraph): the second call, which hands a frame back as a part of
// the packet or of the reassembly memory. Nothing is copied.
ghost use Rattle.std.specs.Prelude.{◌≡◌};
ghost use Rattle.endpoint.specs.Answer.{place_of};
ghost use Rattle.endpoint.specs.View.{Part, Viewed, cut_within, cut_of};

use crate::answer::Place;

// The part of `s` from `start` on with `length` bytes; where `s` has not so many, the empty part at the packet's start. Any two numbers may come
// here, so that their sum may wrap: it is formed only where it is known to fit.
pub(crate) fn part<'r>(packet: &'r [u8], s: &'r [u8], start: usize, length: usize) -> &'r [u8]
    ensures { Part packet.entry s.entry start length result }
{
    if s.len() < length {
        return &packet[..0];
    }
    if s.len() - length < start {
        return &packet[..0];
    }
    &s[start..start + length]
}

// `view` at one lifetime: the place says which slice. `view` itself only shortens the packet's loan.
pub(crate) fn view_one<'r>(packet: &'r [u8], memory: &'r [u8], place: Place) -> &'r [u8]
    ensures { Viewed packet.entry memory.entry (place_of place) result }
{
    if place.in_memory {
        return part(packet, memory, place.start, place.length);
    }
    part(packet, packet, place.start, place.length)
}

// The frame's bytes, where they lie. The result lives as long as the memory is lent, and the packet at least as long: whichever of the two it is
// a part of, it is not written while the result is in use.
pub fn view<'p, 'm>(packet: &'p [u8], memory: &'m [u8], place: Place) -> &'m [u8]
where
    'p: 'm,
    ensures { Viewed packet.entry memory.entry (place_of place) result }
{
    view_one(packet, memory, place)
}

// The place, if it fits a slice of `room` bytes; else the empty place, in the packet. The sum of its numbers may wrap: it is not formed.
fn cut_within(room: usize, place: Place) -> Place
    ensures { result ≡ cut_within room place }
{
    let empty = Place {
        start: 0,
        length: 0,
        in_memory: false,
    };
    if room < place.length {
        return empty;
    }
    if room - place.length < place.start {
        return empty;
    }
    place
}

// The part that `view` gives, as numbers: for a packet and a memory of these lengths, which of the two it is cut from, where it begins, and how many
// bytes it has. For a caller behind a boundary that no reference crosses: it only adds a pointer.
pub fn cut(packet_length: usize, memory_length: usize, place: Place) -> Place
    ensures { result ≡ cut_of packet_length memory_length place }
{
    if place.in_memory {
        return cut_within(memory_length, place);
    }
    cut_within(packet_length, place)
}
