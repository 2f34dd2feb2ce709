// Saving: the configuration's image at the front of a lent output.
ghost use Rattle.std.specs.Prelude.{◌≡◌, ◌+◌, ◌*◌, ◌≤◌, ◌++◌, length, get_or};
ghost use Rattle.wire.specs.Bytes.{be, laid, wrote};
ghost use Rattle.endpoint.specs.Config.{config_of, most_bindings};
ghost use Rattle.reassembly.specs.Base.{table};
ghost use Rattle.reassembly.specs.Slots.{most_peers};
ghost use Rattle.image.specs.Answer.{save_values_of};
ghost use Rattle.image.specs.Images.{SaveRule};
ghost use Rattle.image.specs.Image.{peer_row, binding_row, rows, version1};
ghost use Rattle.image.specs.Save.{save_of, settings_of, binding_in, binding_entry};

use crate::answer::SaveRefusal;
use crate::number::{
    BINDING_BYTES, COUNT_AT, COUNT_BYTES, KIND_AT, LETTERS, MTU_AT, NETWORK_AT, OWN_AT, PEER_BYTES,
    PEERS_AT, PORT_AT, TENANT_AT, VERSION, VERSION_AT,
};
use endpoint::config::Endpoint;
use reassembly::number::PEERS;
use wire::field::set;

// Letters, version and settings.
fn put_settings(out: &mut [u8], own: u32, port: u16, mtu: u16)
    requires { 13 ≤ length out.old }
    ensures { out.new ≡ wrote out.old (settings_of version1 own port mtu) }
{
    set::<3>(out, 0, LETTERS);
    set::<2>(out, VERSION_AT, VERSION);
    set::<4>(out, OWN_AT, own as u64);
    set::<2>(out, PORT_AT, port as u64);
    set::<2>(out, MTU_AT, mtu as u64);
}

// The count of peers, and their addresses.
fn put_peers(out: &mut [u8], addresses: &[u32; PEERS], n: usize)
    requires { (n ≤ most_peers) × (14 + n * 4 ≤ length out.old) }
    ensures { out.new ≡ laid out.old 13 (be 1 n ++ rows peer_row (table n (λ i. get_or addresses.now i 0))) }
{
    set::<1>(out, COUNT_AT, n as u64);
    for i in 0..n {
        set::<4>(out, PEERS_AT + i * PEER_BYTES, addresses[i] as u64);
    }
}

// A binding, from a place on.
// As it is: a binding's four numbers, which lie in four columns of C's.
fn put_binding(out: &mut [u8], at: usize, owner: u8, kind: u8, network: u64, tenant: u16)
    requires { at + 12 ≤ length out.old }
    ensures { out.new ≡ laid out.old at (binding_row (binding_in owner kind network tenant)) }
{
    set::<1>(out, at, owner as u64);
    set::<1>(out, at + KIND_AT, kind as u64);
    set::<8>(out, at + NETWORK_AT, network);
    set::<2>(out, at + TENANT_AT, tenant as u64);
}

// The count of bindings, from a place on, and the bindings.
fn put_bindings(out: &mut [u8], at: usize, e: &Endpoint, n: usize)
    requires { (n ≤ most_bindings) × (at + 1 + n * 12 ≤ length out.old) }
    ensures { out.new ≡ laid out.old at
        (be 1 n ++ rows binding_row (table n (binding_entry e.now.networks e.now.kinds e.now.owners e.now.tenants))) }
{
    set::<1>(out, at, n as u64);
    for i in 0..n {
        let at = at + COUNT_BYTES + i * BINDING_BYTES;
        put_binding(
            out,
            at,
            e.owners[i],
            e.kinds[i],
            e.networks[i],
            e.tenants[i],
        );
    }
}

// Saves an endpoint's configuration at the front of the output. Pending frames are no part of it. The STT port of a refused start is 0: there is nothing to
// save.
pub fn save(e: &Endpoint, output: &mut [u8]) -> Result<usize, SaveRefusal>
    ensures value { result ≡ (save_of (config_of e.now) output.old).answer }
    ensures output_after { output.new ≡ (save_of (config_of e.now) output.old).output }
    ensures save_rule { SaveRule e.now output.old (save_values_of result) output.new }
{
    if e.port == 0 {
        return Err(SaveRefusal::NotStarted);
    }
    let peers = e.peers_listed();
    let bindings = e.bindings_listed();
    let count_at = PEERS_AT + peers * PEER_BYTES;
    let size = count_at + COUNT_BYTES + bindings * BINDING_BYTES;
    if output.len() < size {
        return Err(SaveRefusal::OutputTooShort);
    }
    put_settings(output, e.own, e.port, e.mtu);
    put_peers(output, &e.addresses, peers);
    put_bindings(output, count_at, e, bindings);
    Ok(size)
}
