//! Validation of WebAssembly 1.0 modules, and what each function's frame needs.
//!
//! Source: WebAssembly Core Specification 1.0, chapter 3 (validation).
#![tactic(auto)]

mod constant;
mod floats;
mod functions;
mod imports;
mod locals;
mod module;
mod names;
mod valid;

pub use constant::{initial_value, offset_value};
pub use imports::host_function;
pub use valid::{Valid, ValidFault, validate};
