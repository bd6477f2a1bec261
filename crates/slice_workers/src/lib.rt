//! Workers that make the calls of a queue in slices on one host, each worker in a thread of its own.
#![tactic(auto)]

mod crew;
mod ends;

pub use crew::{SliceCrew, Sliced, open_slice_crew, slice_all};
pub use ends::finish_slices;
pub use slice_steps::SliceShared;
