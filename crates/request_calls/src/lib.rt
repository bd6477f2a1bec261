//! What a line of a request file asks of a module.
#![tactic(auto)]

mod invocation;
mod short_lists;

pub use invocation::Invocation;
pub use short_lists::{Arguments, ExportName};
