// The library for C and Rust as a static library: one export for each function of crate niulassenc, with that function's clauses. include/niulassenc.h declares
// them.
// As it is: each has its function's clauses again, since an export is a function of its own (the C interface).
#![tactic(auto)]

ghost use Rattle.std.specs.Prelude.{◌≡◌};
ghost use Rattle.detector.specs.Detector.{empty, observe_of};
ghost use Rattle.detector.specs.Source.{source_of};
ghost use Rattle.endpoint.specs.Answer.{tick_code, values_of, wrap_values_of};
ghost use Rattle.endpoint.specs.Config.{start_of, add_peer_of, add_binding_of, config_of, tick_of};
ghost use Rattle.endpoint.specs.Receive.{step_of, receipt_of};
ghost use Rattle.endpoint.specs.Wrap.{wrap_of};
ghost use Rattle.image.specs.Answer.{save_values_of};
ghost use Rattle.image.specs.Load.{load_of};
ghost use Rattle.image.specs.Save.{save_of};
ghost use Rattle.niulassenc.specs.About.{version_of, endpoint_bytes, detector_bytes};
ghost use Rattle.niulassenc.specs.Answer.{started_of, addition_of, flat_of, saving_of, started_of_load, writing_of, or_none};
ghost use Rattle.niulassenc.specs.Cut.{cut_at};
ghost use Rattle.niulassenc.specs.Owner.{owner_of};

use detector::detector::Detector;
use detector::observe::Observation;
use endpoint::answer::Place;
use endpoint::config::Endpoint;
use niulassenc::answer::{Addition, Receipt, Saving, Writing};
use niulassenc::config::Started;

// 0.6.0: the major number times 65,536, the minor number times 256, and the patch.
#[unsafe(no_mangle)]
pub extern "C" fn niulassenc_version() -> u32
    ensures { result ≡ version_of 0 6 0 }
{
    niulassenc::about::niulassenc_version()
}

// How many bytes a caller's endpoint takes.
#[unsafe(no_mangle)]
pub extern "C" fn niulassenc_endpoint_bytes() -> u32
    ensures { result ≡ endpoint_bytes }
{
    niulassenc::about::niulassenc_endpoint_bytes()
}

// How many bytes a caller's detector takes.
#[unsafe(no_mangle)]
pub extern "C" fn niulassenc_detector_bytes() -> u32
    ensures { result ≡ detector_bytes }
{
    niulassenc::about::niulassenc_detector_bytes()
}

// Starts an endpoint: our own address, the port on which STT is expected, and the largest outer packet that is written.
#[unsafe(no_mangle)]
pub extern "C" fn niulassenc_start(own: u32, port: u32, mtu: u32) -> Started
    ensures { result ≡ started_of (start_of own port mtu) }
{
    niulassenc::config::niulassenc_start(own, port, mtu)
}

// Lists a peer.
#[unsafe(no_mangle)]
pub extern "C" fn niulassenc_add_peer(endpoint: &mut Endpoint, address: u32) -> Addition
    ensures { (result ≡ addition_of (add_peer_of endpoint.old address).answer)
        × (endpoint.new ≡ (add_peer_of endpoint.old address).endpoint) }
{
    niulassenc::config::niulassenc_add_peer(endpoint, address)
}

// Binds a network of a listed peer to a tenant.
#[unsafe(no_mangle)]
pub extern "C" fn niulassenc_add_binding(
    endpoint: &mut Endpoint,
    peer: u32,
    kind: u32,
    network: u64,
    tenant: u32,
) -> Addition
    ensures { (result ≡ addition_of (add_binding_of endpoint.old peer kind network tenant).answer)
        × (endpoint.new ≡ (add_binding_of endpoint.old peer kind network tenant).endpoint) }
{
    niulassenc::config::niulassenc_add_binding(endpoint, peer, kind, network, tenant)
}

// Receives a packet. The memory is lent to every receive of an endpoint; a delivered STT frame lies there until the next one.
#[unsafe(no_mangle)]
pub extern "C" fn niulassenc_receive(
    endpoint: &mut Endpoint,
    packet: &[u8],
    memory: &mut [u8],
) -> Receipt
    ensures { (result ≡ flat_of (values_of (step_of endpoint.old memory.old packet.now).answer))
        × ((endpoint.new ≡ (receipt_of endpoint.old (step_of endpoint.old memory.old packet.now)).endpoint)
        × (memory.new ≡ (step_of endpoint.old memory.old packet.now).mem)) }
{
    niulassenc::receive::niulassenc_receive(endpoint, packet, memory)
}

// The part of the packet or of the memory, of these lengths, that the place names: the one that a view of it gives (`ViewRule`).
#[unsafe(no_mangle)]
pub extern "C" fn niulassenc_cut(
    packet_length: usize,
    memory_length: usize,
    start: usize,
    length: usize,
    in_memory: bool,
) -> Place
    ensures { result ≡ cut_at packet_length memory_length start length in_memory }
{
    niulassenc::cut::niulassenc_cut(packet_length, memory_length, start, length, in_memory)
}

// Makes every pending frame older by 1, and frees those that reach 4. It always succeeds: 0.
#[unsafe(no_mangle)]
pub extern "C" fn niulassenc_tick(endpoint: &mut Endpoint) -> u8
    ensures { (result ≡ tick_code (tick_of endpoint.old).answer) × (endpoint.new ≡ (tick_of endpoint.old).endpoint) }
{
    niulassenc::tick::niulassenc_tick(endpoint)
}

// Writes the packet that carries the frame out on the binding, or that carries its segment of this number, at the front of the output. The
// endpoint is only read.
#[unsafe(no_mangle)]
pub extern "C" fn niulassenc_wrap(
    endpoint: &Endpoint,
    binding: u32,
    frame: &[u8],
    segment: u32,
    identifier: u32,
    output: &mut [u8],
) -> Writing
    ensures { (result ≡ writing_of (wrap_values_of
        (wrap_of endpoint.now binding frame.now segment identifier output.old).answer))
        × (output.new ≡ (wrap_of endpoint.now binding frame.now segment identifier output.old).output) }
{
    niulassenc::wrap::niulassenc_wrap(endpoint, binding, frame, segment, identifier, output)
}

// Saves the endpoint's configuration as an image at the front of the output. The endpoint is only read; its pending frames are no part of the image.
#[unsafe(no_mangle)]
pub extern "C" fn niulassenc_save(endpoint: &Endpoint, output: &mut [u8]) -> Saving
    ensures { (result ≡ saving_of (save_values_of (save_of (config_of endpoint.now) output.old).answer))
        × (output.new ≡ (save_of (config_of endpoint.now) output.old).output) }
{
    niulassenc::settings::niulassenc_save(endpoint, output)
}

// Makes an endpoint of an image. A bad one gives the endpoint of a refused start, with every number 0.
#[unsafe(no_mangle)]
pub extern "C" fn niulassenc_load(image: &[u8]) -> Started
    ensures { result ≡ started_of_load (load_of image.now) }
{
    niulassenc::settings::niulassenc_load(image)
}

// A detector with no entry.
#[unsafe(no_mangle)]
pub extern "C" fn niulassenc_detector_start() -> Detector
    ensures { result ≡ empty }
{
    niulassenc::observe::niulassenc_detector_start()
}

// Observes a delivered frame, by its tenant, the peer that sent it and its source address. Only a new one makes an entry.
#[unsafe(no_mangle)]
pub extern "C" fn niulassenc_observe(
    detector: &mut Detector,
    tenant: u16,
    peer: u16,
    address: u64,
) -> Observation
    ensures { (result ≡ (observe_of detector.old tenant peer address).answer)
        × (detector.new ≡ (observe_of detector.old tenant peer address).detector) }
{
    niulassenc::observe::niulassenc_observe(detector, tenant, peer, address)
}

// The source address of a frame, bytes 6 to 11, as a number: 02:00:00:00:00:01 is 0x020000000001. 0 of a frame under 12 bytes.
#[unsafe(no_mangle)]
pub extern "C" fn niulassenc_source(frame: &[u8]) -> u64
    ensures { result ≡ source_of frame.now }
{
    niulassenc::observe::niulassenc_source(frame)
}

// The number of the peer that the binding is of; 0xFFFF where no such binding is listed.
#[unsafe(no_mangle)]
pub extern "C" fn niulassenc_owner(endpoint: &Endpoint, binding: u32) -> u16
    ensures { result ≡ or_none (owner_of (config_of endpoint.now) binding) }
{
    niulassenc::owner::niulassenc_owner(endpoint, binding)
}
