//! The report's lines: how loadings, retirements and calls went, as text and as a summary.
#![tactic(auto)]

mod digits;
pub mod laws;
mod report;
mod summary;

pub use report::{
    CallLine, ModuleLine, ReportLine, report_text, write_call, write_module, write_retire,
};
pub use summary::write_summary;
