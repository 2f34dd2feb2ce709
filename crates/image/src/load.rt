// Loading: the test of an image's frame, then the start and the adding calls that its numbers stand for.
ghost use Rattle.std.specs.Prelude.{◌≡◌, ◌+◌, ◌<◌, is_ok};
ghost use Rattle.wire.specs.Bytes.{Bytes};
ghost use Rattle.wire.specs.Field.{field};
ghost use Rattle.std.proofs.Math.Option.{none, some};
ghost use Rattle.wire.specs.Checks.{pick};
ghost use Rattle.endpoint.specs.Config.{add_binding_of};
ghost use Rattle.endpoint.specs.Relist.{relisted};
ghost use Rattle.image.specs.Answer.{load_code};
ghost use Rattle.image.specs.Image.{version1};
ghost use Rattle.image.specs.Images.{LoadRule};
ghost use Rattle.image.specs.Load.{framed, peers_in, bindings_in, bindings_at, peer_call, binding_call, listed_in, bad_image, load_of};

use crate::answer::{BadImage, LoadResult};
use crate::number::{
    BINDING_BYTES, COUNT_AT, COUNT_BYTES, KIND_AT, LETTERS, MTU_AT, NETWORK_AT, OWN_AT, PEER_BYTES,
    PEERS_AT, PORT_AT, TENANT_AT, VERSION, VERSION_AT,
};
use endpoint::answer::ConfigRefusal;
use endpoint::config::Endpoint;
use wire::field::get;

// How many peers an image counts.
fn peers_in(image: &[u8]) -> usize
    ensures value { result ≡ peers_in version1 image.now }
    ensures upper_bound { result < 256 }
{
    get::<1>(image, COUNT_AT) as usize
}

// Where its bindings begin: behind the peers and the count of bindings.
fn bindings_at(image: &[u8]) -> usize
    ensures value { result ≡ bindings_at version1 image.now }
    ensures upper_bound { result < 2048 }
{
    PEERS_AT + peers_in(image) * PEER_BYTES + COUNT_BYTES
}

// How many bindings it counts.
fn bindings_in(image: &[u8]) -> usize
    ensures value { result ≡ bindings_in version1 image.now }
    ensures upper_bound { result < 256 }
{
    get::<1>(image, PEERS_AT + peers_in(image) * PEER_BYTES) as usize
}

// Does it begin as an image does, and end where its counts say?
#[tactic(auto, unfolding(crate::specs::Load::framed, crate::specs::Image::version1, crate::specs::Image::letters))]
fn is_framed(image: &[u8]) -> bool
    ensures { result ≡ framed version1 image.now }
{
    get::<3>(image, 0) == LETTERS
        && get::<2>(image, VERSION_AT) == VERSION
        && image.len() == bindings_at(image) + bindings_in(image) * BINDING_BYTES
}

// Lists an image's peers, up to the first that is refused.
fn list_peers(e: &mut Endpoint, image: &[u8]) -> Result<(), ConfigRefusal>
    ensures { relisted (peer_call image.now) (peers_in version1 image.now) e.old ≡ pick (is_ok result) (some e.new) none }
{
    for i in 0..peers_in(image) {
        let address = get::<4>(image, PEERS_AT + i * PEER_BYTES) as u32;
        e.add_peer(address)?;
    }
    Ok(())
}

// Lists the binding whose bytes begin at a place.
fn list_binding_at(e: &mut Endpoint, image: &[u8], at: usize) -> Result<u16, ConfigRefusal>
    requires { at < 65536 }
    ensures value { result ≡ (add_binding_of e.old
        (field image.now at 1) (field image.now (at + 1) 1) (field image.now (at + 2) 8) (field image.now (at + 10) 2)).answer }
    ensures endpoint_after { e.new ≡ (add_binding_of e.old
        (field image.now at 1) (field image.now (at + 1) 1) (field image.now (at + 2) 8) (field image.now (at + 10) 2)).endpoint }
{
    let peer = get::<1>(image, at) as u32;
    let kind = get::<1>(image, at + KIND_AT) as u32;
    let network = get::<8>(image, at + NETWORK_AT);
    let tenant = get::<2>(image, at + TENANT_AT) as u32;
    e.add_binding(peer, kind, network, tenant)
}

// Lists an image's bindings, up to the first that is refused.
fn list_bindings(e: &mut Endpoint, image: &[u8]) -> Result<(), ConfigRefusal>
    ensures { relisted (binding_call image.now (bindings_at version1 image.now)) (bindings_in version1 image.now) e.old
        ≡ pick (is_ok result) (some e.new) none }
{
    let at = bindings_at(image);
    for i in 0..bindings_in(image) {
        list_binding_at(e, image, at + i * BINDING_BYTES)?;
    }
    Ok(())
}

// Lists an image's peers and bindings in a started endpoint, up to the first that is refused.
fn relist(e: &mut Endpoint, image: &[u8]) -> Result<(), ConfigRefusal>
    ensures { listed_in version1 image.now e.old ≡ pick (is_ok result) (some e.new) none }
{
    list_peers(e, image)?;
    list_bindings(e, image)
}

// What a bad image gives: the endpoint of a refused start. A call of its own: in place it made a good load clear and copy another endpoint on the way out.
#[inline(never)]
fn bad_image() -> LoadResult
    ensures { result ≡ bad_image }
{
    let refused = Endpoint::start(0, 0, 0);
    LoadResult {
        endpoint: refused.endpoint,
        answer: Err(BadImage),
    }
}

// Makes an endpoint of an image: a set-up with no frame pending. An image that no save gives is refused.
pub fn load(image: &[u8]) -> LoadResult
    ensures value { result ≡ load_of image.now }
    ensures load_rule { Bytes image.now → LoadRule image.now (load_code result.answer) result.endpoint }
{
    if !is_framed(image) {
        return bad_image();
    }
    let own = get::<4>(image, OWN_AT) as u32;
    let port = get::<2>(image, PORT_AT) as u32;
    let mtu = get::<2>(image, MTU_AT) as u32;
    let started = Endpoint::start(own, port, mtu);
    if started.answer.is_err() {
        return bad_image();
    }
    let mut loaded = LoadResult {
        endpoint: started.endpoint,
        answer: Ok(()),
    };
    if relist(&mut loaded.endpoint, image).is_err() {
        return bad_image();
    }
    loaded
}
