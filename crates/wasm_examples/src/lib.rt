//! Computed examples of the definitions of WebAssembly 1.0 and of profiles 2 and 3: a definition with a wrong digit or in a wrong order
//! makes one fail.
//!
//! Source: WebAssembly Core Specification 1.0; for what profile 2 adds, version 2.0. Nothing stands on this crate.
#![tactic(auto)]
