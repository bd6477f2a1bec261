//! Numbers and names of the WebAssembly binary format, read from bytes in memory. Takes no memory.
//!
//! Source: WebAssembly Core Specification 1.0, sections 5.2.2 (LEB128) and 5.2.4 (names).
#![tactic(auto)]

mod cursor;
mod items;
pub mod laws;

pub use cursor::{Cursor, Malformed};
