// VXLAN (RFC 7348, 5): the header behind UDP, whose payload is `s`.
ghost use Rattle.std.specs.Prelude.{◌≡◌};
ghost use Rattle.wire.specs.Vxlan.{vxlan_of};

use crate::be::be;
use crate::carriage::Tunnel;
use crate::number::{KIND_VXLAN, UDP_VXLAN_HEADERS, VXLAN_FLAG, VXLAN_HEADER};
use crate::refusal::Refusal;

// Only the flag I is asked for.
#[tactic(auto, using(crate::proofs::Laws::Checks::deciding, crate::proofs::Laws::Bytes::be_one), unfolding(crate::specs::Vxlan::vxlan_of, crate::specs::Vxlan::vxlan_checks, crate::specs::Vxlan::vxlan_at, crate::specs::Checks::first,))]
pub fn read(s: &[u8]) -> Result<Tunnel, Refusal>
    ensures { result ≡ vxlan_of s.now }
{
    if s.len() < VXLAN_HEADER {
        return Err(Refusal::Short);
    }
    if s[0] / VXLAN_FLAG % 2 != 1 {
        return Err(Refusal::VxlanFlag);
    }
    Ok(Tunnel {
        start: UDP_VXLAN_HEADERS,
        network: be::<3>(s, 4) as u32,
        kind: KIND_VXLAN,
    })
}
