// The endpoint, its settings image and the detector for C and Rust: what include/niulassenc.h declares. An enum cannot cross that boundary: its numbers do.
#![tactic(auto)]

pub mod about;
pub mod answer;
pub mod config;
pub mod cut;
pub mod observe;
pub mod owner;
pub mod receive;
pub mod settings;
pub mod tick;
pub mod wrap;
