//! Runs a function of a valid module on fuel, over a memory, a table, globals and stacks that are lent to it. It takes no memory.
#![tactic(auto)]

mod block_entry;
mod calls;
mod control;
mod inputs;
mod interpreter;
mod invocation;
mod lookup;
mod stacks;
mod stretch;

pub use inputs::RunInputs;
pub use invocation::{RunEnd, run};
pub use linear_memory::Memory;
pub use stacks::Stacks;
pub use wasm_types::RunLimits;
