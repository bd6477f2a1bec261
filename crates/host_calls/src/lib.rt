//! What a caller has of a host, a pass with it, and what holds of the calls of hosts and lanes.
#![tactic(auto)]

mod caller;
pub mod laws;

pub use caller::HostCaller;
