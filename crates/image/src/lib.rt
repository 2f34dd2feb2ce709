// The settings image (document 02, §3): an endpoint's configuration as bytes, and an endpoint from such bytes.
#![tactic(auto)]

pub mod answer;
pub mod code;
pub mod load;
pub mod number;
pub mod save;
