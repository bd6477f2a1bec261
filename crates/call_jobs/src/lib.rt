//! Calls that are due, and the entries that workers make of them.
#![tactic(auto)]

mod calls;
mod entries;
mod turns;
mod waits;

pub use calls::{Due, Item, due_at};
pub use entries::{Worked, put_behind};
pub use turns::TurnsLeft;
pub use waits::Waits;
