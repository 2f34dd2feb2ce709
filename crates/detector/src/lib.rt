// The duplicate address detector (document 02, §1): cloned boards share one hardware address, and the detector says when an address of a tenant is shown by a
// second peer. It stands beside the endpoint: it has a state of its own, and neither reads the other.
#![tactic(auto)]

pub mod detector;
pub mod number;
pub mod observe;
pub mod source;
