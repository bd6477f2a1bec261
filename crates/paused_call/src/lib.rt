//! A call that is made in slices, over the parts that are lent to a run.
#![tactic(auto)]

mod call;

pub use call::{PausedCall, SliceEnd};
