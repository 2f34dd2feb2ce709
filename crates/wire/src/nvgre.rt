// NVGRE (RFC 7637, 3.2): GRE with a key (RFC 2784, RFC 2890).
ghost use Rattle.std.specs.Prelude.{◌≡◌};
ghost use Rattle.wire.specs.Nvgre.{nvgre_of};

use crate::be::be;
use crate::carriage::Tunnel;
use crate::number::{GRE_HEADER, GRE_KEY, GRE_TYPE_HIGH, GRE_TYPE_LOW, KIND_NVGRE};
use crate::refusal::Refusal;

// Of the first byte, the two lowest bits are reserved and ignored (RFC 2784, 2.3); of the others, the key's alone is set.
#[tactic(auto, using(crate::proofs::Laws::Checks::deciding, crate::proofs::Laws::Bytes::be_one), unfolding(crate::specs::Nvgre::nvgre_of, crate::specs::Nvgre::nvgre_checks, crate::specs::Nvgre::nvgre_at, crate::specs::Checks::first,))]
pub fn read(s: &[u8]) -> Result<Tunnel, Refusal>
    ensures { result ≡ nvgre_of s.now }
{
    if s.len() < GRE_HEADER {
        return Err(Refusal::Short);
    }
    if s[0] / 4 != GRE_KEY / 4 {
        return Err(Refusal::GreFlags);
    }
    if s[1] % 8 != 0 {
        return Err(Refusal::GreVersion);
    }
    if s[2] != GRE_TYPE_HIGH {
        return Err(Refusal::GreTypeHigh);
    }
    if s[3] != GRE_TYPE_LOW {
        return Err(Refusal::GreTypeLow);
    }
    Ok(Tunnel {
        start: GRE_HEADER,
        network: be::<3>(s, 4) as u32,
        kind: KIND_NVGRE,
    })
}
