//! Which modules are retired, by their tags, as threads share it without a lock.
//!
//! A [`RetiredTags`] has one bit for each tag, none set at first. Threads share it by `&`, each with a [`TagPass`] of its own. Each call is one atomic step on one word: [`RetiredTags::retire`] sets a bit by one `fetch_or`, [`RetiredTags::is_retired`] reads one by one load. A bit that is set is never cleared.
#![tactic(auto)]

pub mod laws;
mod operations;
mod outcomes;
mod rule;
mod setup;
mod tags;
mod views;

pub use rule::Ruled;
pub use setup::Setup;
pub use tags::RetiredTags;
pub use views::{TagPass, TagStep, TagView};
