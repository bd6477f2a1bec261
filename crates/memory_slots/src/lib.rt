//! Linear memories that lie in slots: each is made ready for a module by writing over what was written to. Threads share pools of
//! them.
#![tactic(auto)]

mod images;
mod left;
mod pool;
mod slot;

pub use block_restore::Steps;
pub use left::LeftMemory;
pub use linear_memory::Memory;
pub use pool::MemoryPool;
pub use slot::MemSlot;
pub use slot_pools::{Full, Taken};
