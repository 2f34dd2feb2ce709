// The wire formats: for each protocol what its bytes mean, a reader that answers a Result, and a writer into a lent output.
#![tactic(auto)]

mod be;
pub mod carriage;
pub mod copy;
pub mod field;
pub mod frame;
mod head;
pub mod inner;
pub mod ipv4;
mod le;
pub mod number;
pub mod nvgre;
mod ones;
mod put;
pub mod refusal;
pub mod segment;
pub mod stt;
mod sum;
pub mod udp;
pub mod vxlan;
mod wide;
pub mod write;
