//! Tables that lie in slots: each is written when its slot goes to another module. Threads share pools of them.
#![tactic(auto)]

mod pool;
mod slot;

pub use pool::TablePool;
pub use slot::TableSlot;
pub use slot_pools::Full;
