//! The definitions of WebAssembly 1.0, and of what profile 2 adds, that several crates cite, with their laws.
//!
//! Source: WebAssembly Core Specification 1.0; for what profile 2 adds, version 2.0.
#![tactic(auto)]

mod grammar_laws;
pub mod laws;
