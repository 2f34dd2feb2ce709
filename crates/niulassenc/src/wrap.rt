// Wrapping.
ghost use Rattle.std.specs.Prelude.{◌≡◌};
ghost use Rattle.endpoint.specs.Answer.{wrap_values_of};
ghost use Rattle.endpoint.specs.Wrap.{wrap_of};
ghost use Rattle.niulassenc.specs.Answer.{writing_of};

use crate::answer::Writing;
use endpoint::config::Endpoint;

// Writes the packet that carries the frame out on the binding, or that carries its segment of this number, at the front of the output. The
// endpoint is only read. No frame has more segments than bytes, so that their count fits.
// As it is: the answer is made without a From, which has no `requires`: that the segments fit 32 bits is what the wrap promises.
pub fn niulassenc_wrap(
    endpoint: &Endpoint,
    binding: u32,
    frame: &[u8],
    segment: u32,
    identifier: u32,
    output: &mut [u8],
) -> Writing
    ensures { (result ≡ writing_of (wrap_values_of
        (wrap_of endpoint.now binding frame.now segment identifier output.old).answer))
        × (output.new ≡ (wrap_of endpoint.now binding frame.now segment identifier output.old).output) }
{
    match endpoint.wrap(binding, frame, segment, identifier, output) {
        Ok(packet) => Writing {
            length: packet.length,
            segments: packet.segments as u32,
            code: 0,
        },
        Err(r) => Writing {
            length: 0,
            segments: 0,
            code: r.code(),
        },
    }
}
