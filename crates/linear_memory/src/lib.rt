//! The linear memory that is lent to a run, with a mark for each of its blocks that was written to.
#![tactic(auto)]

mod memory;
mod zeroed_bytes;

pub use memory::{BLOCK_SIZE, Memory};
pub use zeroed_bytes::ZeroedBytes;
