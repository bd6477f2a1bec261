//! The report on what a request file asks for: its modules are loaded, its calls are made, and each directive gets a line.
#![tactic(auto)]

mod file_report;
pub mod laws;

pub use file_report::report;
