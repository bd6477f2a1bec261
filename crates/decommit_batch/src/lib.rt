//! Slots that await their decommit, and how many at once are cleaned; slots that a module left, and how they become cold.
#![tactic(auto)]

mod batch;
mod flushes;
pub mod laws;
mod settlement;
mod sweeps;

pub use batch::hand_in;
pub use flushes::flush;
pub use settlement::settle;
pub use sweeps::sweep;
