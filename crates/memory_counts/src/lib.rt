//! What a pass's takes of memories came to: warm, cold, in vain, and how many flushes there were.
#![tactic(auto)]

mod counting;
mod tally;

pub use tally::{MemoryTally, TakeCounts};
