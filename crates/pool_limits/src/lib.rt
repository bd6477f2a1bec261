//! The numbers of a pool's configuration, their ranges, and what tenants may want and modules ask for under them.
#![tactic(auto)]

mod config;
pub mod laws;
mod numbers;
mod over;
mod plans;
mod share;
mod wants;

pub use config::PoolConfig;
pub use numbers::{BadNumber, Numbers, Setting};
pub use over::{MOST_GLOBALS, Measure, Over};
pub use plans::wanted;
pub use share::Share;
pub use wants::{MOST_TENANTS, Part, PlanFault, Want};
