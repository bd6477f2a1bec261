//! All calls of a file are made: round by round, or all of them in slices.
#![tactic(auto)]

mod calls;
mod crew_rounds;
mod modes;
mod rounds;
mod shares;
mod sliced_run;

pub use modes::{Made, make_all};
pub use rounds::Run;
pub use sliced_run::SlicedRun;
