// A recorded trace (document 02, §6): reading its records from pieces of any size.
#![tactic(auto)]

pub mod number;
pub mod reader;
