//! Expressions of the WebAssembly binary format, decoded: instructions up to their end, from a place in bytes.
//!
//! Source: WebAssembly Core Specification 1.0, section 5.4; for what profile 2 adds, version 2.0, section 5.4.
#![tactic(auto)]

mod expr;
mod expr_builder;
mod fault;
mod instr;
mod token;
mod types;

pub use expr::decode_expr;
pub use fault::DecodeFault;
pub use types::value_type;
