//! The steps of one worker that makes calls in slices, up to its end, and what goes round among such workers.
#![tactic(auto)]

mod last_slice;
mod pace;
mod queued;
mod run_names;
mod slice_shared;
mod slices;
mod steps;
mod work_loop;

pub use last_slice::end_call;
pub use queued::Queued;
pub use run_names::{InRun, InSlices, RunNaming};
pub use slice_shared::SliceShared;
pub use steps::Slicer;
pub use work_loop::work_in_slices;
