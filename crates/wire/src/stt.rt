// The header of an STT frame (draft-davie-stt-06, 3.1). The inner frame starts at byte 18.
ghost use Rattle.std.specs.Prelude.{◌≡◌, ◌≤◌, length};
ghost use Rattle.wire.specs.Stt.{contradicts, stt_of};

use crate::be::be;
use crate::inner::carries_transport;
use crate::number::STT_HEADER;
use crate::refusal::Refusal;

// Are flags 0x01 and 0x02 both set, of a frame for which they say something: one that carries TCP or UDP over IP (document 02, §5)?
#[tactic(auto, using(crate::proofs::Laws::Checks::deciding, crate::proofs::Laws::Bytes::be_one), unfolding(crate::specs::Stt::contradicts))]
fn contradicts(s: &[u8]) -> bool
    requires { 18 ≤ length s.now }
    ensures { result ≡ contradicts s.now }
{
    be::<1>(s, 1) % 4 == 3 && carries_transport(&s[STT_HEADER..])
}

// The Context ID.
#[tactic(auto, using(crate::proofs::Laws::Checks::deciding, crate::proofs::Laws::Bytes::be_one), unfolding(crate::specs::Stt::stt_of, crate::specs::Stt::stt_checks, crate::specs::Checks::first))]
pub fn read(s: &[u8]) -> Result<u64, Refusal>
    ensures { result ≡ stt_of s.now }
{
    if s.len() < STT_HEADER {
        return Err(Refusal::Short);
    }
    if s[0] != 0 {
        return Err(Refusal::SttVersion);
    }
    if contradicts(s) {
        return Err(Refusal::SttFlags);
    }
    Ok(be::<8>(s, 8))
}
