//! The queue that hands numbered calls to workers, the queue of what is at work, and the board that collects the calls' lines.
#![tactic(auto)]

mod accounts;
mod admits;
mod board;
mod jobs;
pub mod laws;
mod rules;
mod run_queue;
mod run_rules;

pub use accounts::{Account, Terms};
pub use admits::Admits;
pub use board::{Board, Stray};
pub use jobs::{JobPass, Jobs};
pub use run_queue::{RunAccount, RunPass, RunQueue, RunTerms};
