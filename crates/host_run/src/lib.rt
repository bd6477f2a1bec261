//! The host as one call: the words of a command line and a request file go in, the due text comes out.
#![tactic(auto)]

mod answer;
mod due;
pub mod laws;
mod service;
mod status;
mod streams;

pub use call_workers::work;
pub use service::{refuse_words, serve};
pub use status::Status;
