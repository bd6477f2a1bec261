//! State words and slot values that threads share, without a lock.
//!
//! A [`Words`] has one state word and one value for each slot, and three count words: how many slots are warm, how many await their decommit, and a clock. Threads share it by `&`, each with a [`Pass`] of its own. Each call is one atomic step on one word, and each step is one event of a `pool_core` core by that pass's seat. A claim sets the held bit by one `fetch_or` and takes the value out of the slot; a release puts the value back and then stores the word.
#![tactic(auto)]

mod claims;
mod cores;
mod counts;
mod kinds;
pub mod laws;
mod leases;
mod lifetime;
mod looks;
mod outcomes;
mod passes;
mod pooled;
mod rule;
mod scans;
mod seen;
mod views;
mod words;

pub use kinds::KindCounts;
pub use leases::{Held, Lease};
pub use pool_core::NoMemory;
pub use pooled::Pooled;
pub use rule::Ruled;
pub use seen::Seen;
pub use views::{Bounds, Operation, Pass, PassView, SeatTrail};
pub use words::Words;
