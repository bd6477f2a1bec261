//! In which order the slots that a scan saw are claimed.
#![tactic(auto)]

mod claim_order;
pub mod laws;
mod least;
mod orders;
mod ranks;

pub use claim_order::order;
pub use least::{first_in_order, next_in_order};
pub use orders::Order;
