//! How a slot is taken out of a pool and given back, whatever lies in it.
//!
//! A slot is taken by [`take`], under the [`Policy`] of its pool. One that awaits its decommit is given back by `decommit_batch::hand_in`, one that is warm or cold by [`give_warm`], and one that is only ever cold by [`give_cold`].
#![tactic(auto)]

mod answers;
mod claims;
mod gives;
pub mod laws;
mod looks;
mod open_slot;
mod policy;
mod rows;
mod takes;
mod wins;

pub use answers::{Full, Taken};
pub use decommit_batch::sweep;
pub use gives::{give_cold, give_warm};
pub use open_slot::{OpenSlot, open};
pub use policy::Policy;
pub use takes::{take, take_telling};
