// The tunnel endpoint: configuration, receiving, ageing, and the view of a delivered frame.
#![tactic(auto)]

pub mod answer;
pub mod code;
pub mod config;
pub mod number;
pub mod receive;
pub mod search;
pub mod tick;
pub mod view;
pub mod wrap;
