//! Shares of tenants: what each of them has of the slots that are not the lane's, and a host for each with its slots.
#![tactic(auto)]

pub mod laws;
mod passes;
mod plan;
mod share_host;

pub use passes::{Caller, TenantPass};
pub use plan::Plan;
pub use pool_limits::{PlanFault, Want};
pub use share_host::ShareHost;
