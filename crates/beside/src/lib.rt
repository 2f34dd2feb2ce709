// The reference reassembler for C and Rust, so that tests run it beside the library (host/beside). It goes in and comes out by value; an enum cannot cross that
// boundary, so that of a reply its numbers do.
#![tactic(auto)]

ghost use Rattle.std.specs.Prelude.{◌≡◌, List, ℕ};
ghost use Rattle.endpoint.specs.Config.{Config};
ghost use Rattle.endpoint.specs.Receive.{answers, layers};
ghost use Rattle.reference.specs.Calls.{begun_of, hears_in, left_of, reply_of, ticked_in};
ghost use Rattle.beside.specs.Answer.{receipt_of};

use endpoint::answer::Received;
use endpoint::config::Endpoint;
use niulassenc::answer::{Receipt, empty};
use reference::answer::Refusal;
use reference::reassembler::Reassembler;

// What a receive gives back.
#[repr(C)]
#[derive(Clone, Copy)]
pub struct Hearing {
    pub reassembler: Reassembler,
    pub receipt: Receipt,
}

// The documents' number and values of a reply.
fn flat_reply(reply: Result<Received, Refusal>) -> Receipt
    ensures { result ≡ receipt_of reply }
{
    match reply {
        Ok(received) => Ok(received).into(),
        Err(Refusal::Dropped(why)) => Err(why).into(),
        Err(Refusal::TooManySegments) => empty(32, 0),
    }
}

// Starts a reference reassembler with this endpoint's configuration, and no frame pending.
#[unsafe(no_mangle)]
pub extern "C" fn reference_start(endpoint: Endpoint) -> Reassembler
    ensures { (result.endpoint ≡ endpoint) × ((m : List ℕ) → left_of result m ≡ begun_of endpoint m) }
{
    Reassembler::start(endpoint)
}

// Receives a packet. The memory is lent to every receive of a reference reassembler, 50,688 bytes or more; a delivered STT frame lies there until the next one.
#[unsafe(no_mangle)]
pub extern "C" fn reference_receive(
    reassembler: Reassembler,
    packet: &[u8],
    memory: &mut [u8],
) -> Hearing
    ensures receipt_value { result.receipt
        ≡ receipt_of (reply_of (hears_in answers Config layers (left_of reassembler memory.old) packet.now).reply) }
    ensures memory_after { left_of result.reassembler memory.new
        ≡ (hears_in answers Config layers (left_of reassembler memory.old) packet.now).left }
    ensures endpoint_value { result.reassembler.endpoint ≡ reassembler.endpoint }
{
    let mut left = reassembler;
    let reply = left.receive(packet, memory);
    Hearing {
        reassembler: left,
        receipt: flat_reply(reply),
    }
}

// A tick of a reference reassembler.
#[unsafe(no_mangle)]
pub extern "C" fn reference_tick(reassembler: Reassembler) -> Reassembler
    ensures { (result.endpoint ≡ reassembler.endpoint)
        × ((m : List ℕ) → left_of result m ≡ ticked_in answers Config layers (left_of reassembler m)) }
{
    let mut left = reassembler;
    left.tick();
    left
}
