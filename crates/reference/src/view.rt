// The view of a delivered frame: a part of the packet, or of the memory that the reference reassembler was lent. The endpoint's, since a place is a place.
ghost use Rattle.endpoint.specs.Answer.{place_of};
ghost use Rattle.endpoint.specs.View.{Viewed};

use endpoint::answer::Place;

pub fn view<'p, 'm>(packet: &'p [u8], memory: &'m [u8], place: Place) -> &'m [u8]
where
    'p: 'm,
    ensures { Viewed packet.entry memory.entry (place_of place) result }
{
    endpoint::view::view(packet, memory, place)
}
