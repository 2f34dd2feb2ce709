// What the reference reassembler answers: as the endpoint does, with a place in the reference reassembler's own memory; or 32.
ghost use Rattle.std.specs.Prelude.{◌≡◌};
ghost use Rattle.reference.specs.Layout.{refusal_of};
ghost use Rattle.reference.specs.Calls.{number_of};
ghost use Rattle.reference.specs.declared.answer.Refusal.TheVariants.{Dropped};

use endpoint::answer::{Drop, Received};
use endpoint::code::received_code;
use reassembly::take::Rejection;

// Why a packet is refused.
#[derive(Clone, Copy)]
pub enum Refusal {
    // as the endpoint drops it
    Dropped(Drop),
    // 32: the 65th segment of its frame
    TooManySegments,
}

impl From<Drop> for Refusal {
    ghost from_gives = { λ why r. r ≡ Dropped why };

    fn from(why: Drop) -> Refusal {
        Refusal::Dropped(why)
    }
}

impl From<Rejection> for Refusal {
    ghost from_gives = { λ why r. r ≡ refusal_of why };

    fn from(why: Rejection) -> Refusal {
        Refusal::Dropped(Drop::Segment(why))
    }
}

// The documents' number of a reply.
pub fn reply_code(reply: Result<Received, Refusal>) -> u8
    ensures { result ≡ number_of reply }
{
    match reply {
        Ok(received) => received_code(Ok(received)),
        Err(Refusal::Dropped(why)) => why.code(),
        Err(Refusal::TooManySegments) => 32,
    }
}
