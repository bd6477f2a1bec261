//! The request file's text: a request file is read into its profile, its tenants and its directives, or refused at its first bad line.
#![tactic(auto)]

mod directive;
mod fault;
mod file_profile;
pub mod laws;
mod parser;
mod reading;
mod refusal;
mod request;
mod retired_places;
mod scope;
mod tenants;

pub use parser::parse;
pub use refusal::write_text_fault;
pub use report_text::{
    CallLine, ModuleLine, write_call, write_module, write_retire, write_summary,
};
pub use request::{
    Directive, MOST_BYTES, MOST_CALLS, MOST_MODULES, MOST_NAME_BYTES, ParseFault, Reason, Requests,
};
pub use request_calls::{Arguments, ExportName, Invocation};
