// Reassembly of STT frames in lent memory (document 01, "Reassembly memory"): slots, the map of received bytes, taking a segment, ageing.
#![tactic(auto)]

pub mod map;
pub mod memory;
pub mod number;
pub mod slot;
pub mod take;
pub mod tick;
