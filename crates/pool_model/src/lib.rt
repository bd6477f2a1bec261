//! What callers can see of a slot pool.
#![tactic(auto)]

mod kinds;
pub mod laws;

pub use kinds::Kind;
