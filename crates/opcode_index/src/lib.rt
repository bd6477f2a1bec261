//! The standard's index of opcodes, row by row: each byte of the grammar stands for what the index names, and no other byte for an
//! instruction. Nothing stands on this crate.
//!
//! Source: WebAssembly Core Specification 1.0, appendix A.5; for what profile 2 adds, version 2.0, appendix A.7.
#![tactic(auto)]

pub mod laws;
