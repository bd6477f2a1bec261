//! Blocks of a memory, which are written over from an image, each in a step that is counted.
#![tactic(auto)]

mod blocks;
mod counted_bytes;
mod steps;

pub use blocks::{restore_marked, write_all};
pub use steps::Steps;
