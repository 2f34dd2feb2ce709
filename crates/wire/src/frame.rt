// The inner Ethernet frame (document 01, "Listing and numbers"): its length, and no VLAN tag.
ghost use Rattle.std.specs.Prelude.{◌≡◌};
ghost use Rattle.wire.specs.Frame.{frame_of};

use crate::be::be;
use crate::number::{FRAME_MAX, FRAME_MIN, TYPE_SERVICE_VLAN, TYPE_VLAN};
use crate::refusal::Refusal;

#[tactic(auto, using(crate::proofs::Laws::Checks::deciding), unfolding(crate::specs::Frame::frame_of, crate::specs::Frame::frame_checks, crate::specs::Checks::first,))]
pub fn read(s: &[u8]) -> Result<(), Refusal>
    ensures { result ≡ frame_of s.now }
{
    if s.len() < FRAME_MIN || FRAME_MAX < s.len() {
        return Err(Refusal::FrameLength);
    }
    let kind = be::<2>(s, 12) as u16;
    if kind == TYPE_VLAN || kind == TYPE_SERVICE_VLAN {
        return Err(Refusal::FrameTag);
    }
    Ok(())
}
