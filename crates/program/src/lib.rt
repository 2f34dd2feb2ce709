// What the programs share: standard output, the texts of answers, and the numbers of the test runs (host/README.md).
#![tactic(auto)]

pub mod answer;
pub mod number;
pub mod print;
