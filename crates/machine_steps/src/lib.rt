//! The stacks of a running function, and the instructions that stay in their sequence. It knows no types, no fuel and no module.
#![tactic(auto)]

mod accesses;
mod bulk;
mod cells;
mod frames;
mod host;
mod locals;
mod machine;
mod operands;
mod plain;
mod values;

pub use frames::Frame;
pub use host::{append_memory, copy_request};
pub use machine::{Label, Machine, Position};
pub use plain::Effect;
pub use values::ValueStack;
