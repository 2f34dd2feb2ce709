// Receiving, over an endpoint that is lent: it is read and changed where it lies.
ghost use Rattle.std.specs.Prelude.{◌≡◌};
ghost use Rattle.endpoint.specs.Answer.{values_of};
ghost use Rattle.endpoint.specs.Receive.{step_of, receipt_of};
ghost use Rattle.niulassenc.specs.Answer.{flat_of};

use crate::answer::Receipt;
use endpoint::config::Endpoint;

// Receives a packet. The memory is lent to every receive of an endpoint; a delivered STT frame lies there until the next one.
pub fn niulassenc_receive(endpoint: &mut Endpoint, packet: &[u8], memory: &mut [u8]) -> Receipt
    ensures { (result ≡ flat_of (values_of (step_of endpoint.old memory.old packet.now).answer))
        × ((endpoint.new ≡ (receipt_of endpoint.old (step_of endpoint.old memory.old packet.now)).endpoint)
        × (memory.new ≡ (step_of endpoint.old memory.old packet.now).mem)) }
{
    endpoint.receive(packet, memory).into()
}
