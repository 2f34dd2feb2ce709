// The lowest number that passes a test: what a lookup of every crate above means (specs/Search.antt), and its laws. The searches themselves stand where the
// tables do, which they read in place.
#![tactic(auto)]
