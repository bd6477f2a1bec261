//! The outside of the host: what it reads from, what it writes to, and who is told of its calls.
#![tactic(auto)]

mod gate;
mod memory;
mod standard;
mod streams;

pub use gate::{Gate, OpenGate};
pub use memory::{MemSink, MemSource};
pub use standard::{StdSink, StdSource};
pub use streams::{Failed, Sink, Source};
