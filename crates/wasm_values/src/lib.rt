//! Values of WebAssembly, how a call ends, and the few plain types that text, queue and pools share with the machine.
//!
//! Source: WebAssembly Core Specification 1.0, section 4.2 (runtime structure).
#![tactic(auto)]

mod items;
mod outcome;
mod profile;

pub use items::Items;
pub use outcome::{NoMemory, Outcome, TrapKind, Val};
pub use profile::Profile;
