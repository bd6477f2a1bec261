//! Bytes of which most are zero, kept as the blocks and the cells that were written to.
#![tactic(auto)]

mod bytes;
mod cells;

pub use bytes::{BLOCK_SIZE, SparseBytes};
