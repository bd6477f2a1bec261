//! The checker of function bodies: whether each is typed, and what its frame needs.
//!
//! Source: WebAssembly Core Specification 1.0, section 3.3 (instructions) and its appendix A.3 (validation algorithm).
#![tactic(auto)]

mod branches;
mod checker;
mod fault;
mod function;
mod instructions;
mod locals;
mod lookup;
mod memory;
mod rules;
mod variables;
mod walk;
mod widths;

pub use fault::CheckFault;
pub use function::check_function;
pub use lookup::function_type;
pub use widths::type_of;
