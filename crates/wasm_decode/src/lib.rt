//! The WebAssembly binary format, decoded: a module from its bytes, in a profile.
//!
//! Source: WebAssembly Core Specification 1.0, chapter 5; for what profile 2 adds, version 2.0, chapter 5.
#![tactic(auto)]

mod decoder;
mod function;
mod item;
mod module;
mod section;
mod types;

pub use decoder::decode;
pub use instr_decode::DecodeFault;
