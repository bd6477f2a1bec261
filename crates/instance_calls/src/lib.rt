//! Calls of loaded modules, each on an instance whose slots are taken.
#![tactic(auto)]

mod arguments;
mod instance;
mod left_instance;
mod needs;
mod parts;
mod paused_instance;
mod refusal;

pub use instance::Instance;
pub use left_instance::LeftInstance;
pub use needs::{needs_memory, needs_table};
pub use paused_instance::{PausedInstance, Resumed};
pub use refusal::{Refusal, find_function};
