// The duplicate address detector: a state of its own beside the endpoint. A caller shows it each frame that was delivered.
ghost use Rattle.std.specs.Prelude.{◌≡◌};
ghost use Rattle.detector.specs.Detector.{empty, observe_of};
ghost use Rattle.detector.specs.Source.{source_of};

use detector::detector::Detector;
use detector::observe::Observation;
use detector::source;

// A detector with no entry.
pub fn niulassenc_detector_start() -> Detector
    ensures { result ≡ empty }
{
    Detector::start()
}

// Observes a delivered frame, by its tenant, the peer that sent it and its source address. Only a new one makes an entry.
pub fn niulassenc_observe(
    detector: &mut Detector,
    tenant: u16,
    peer: u16,
    address: u64,
) -> Observation
    ensures { (result ≡ (observe_of detector.old tenant peer address).answer)
        × (detector.new ≡ (observe_of detector.old tenant peer address).detector) }
{
    detector.observe(tenant, peer, address).into()
}

// The source address of a frame, bytes 6 to 11, as a number: 02:00:00:00:00:01 is 0x020000000001. 0 of a frame under 12 bytes.
pub fn niulassenc_source(frame: &[u8]) -> u64
    ensures { result ≡ source_of frame.now }
{
    source::source(frame)
}
