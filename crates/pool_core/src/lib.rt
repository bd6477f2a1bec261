//! The pure core of a slot pool: one word of state for each slot, one seat for each caller, the counts that all seats share, and what each of the fifteen events does to them.
//!
//! Nothing here runs in threads. A [`Core`] is plain data, [`step`] applies one event to it or says which rule refuses that event, and [`replay`] applies a list of events.
#![tactic(auto)]

mod events;
pub mod laws;
mod limits;
mod pool;
mod refusals;
mod replays;
mod seats;
mod words;

pub use events::Event;
pub use limits::{MOST_SLOTS, STAMP_LIMIT, TAG_LIMIT};
pub use pool::{Core, NoMemory, step};
pub use refusals::Unlawful;
pub use replays::{ReplayFault, replay};
pub use seats::{Seat, Stage};
pub use words::{State, StateWord, Target, pack, unpack};
