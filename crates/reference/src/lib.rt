// The reference reassembler (document 02, §7): a second reassembler of STT that keeps each peer's taken segments as a list and rebuilds a frame from nothing at
// each call, with no map. specs/Reassembler.antt is what it does; specs/Same.antt, that its answers are the endpoint's.
#![tactic(auto)]

pub mod answer;
pub mod buffer;
pub mod list;
pub mod number;
pub mod reassembler;
pub mod receive;
pub mod take;
pub mod tick;
pub mod view;
