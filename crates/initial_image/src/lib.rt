//! What the memory, the table and the globals of a new instance hold.
//!
//! Source: WebAssembly Core Specification 1.0, section 4.5.4 (instantiation).
#![tactic(auto)]

mod fill;
mod image;
mod segments;

pub use fill::{table_length, write_table};
pub use image::{Image, ImageFault, build};
pub use segments::{Misfit, SegmentIndex};
