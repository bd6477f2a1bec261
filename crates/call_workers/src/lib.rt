//! Workers that make the calls of a file round by round, each call whole on the slots of its tenant, each worker in a thread of its own.
#![tactic(auto)]

mod calls;
mod crew;
mod ends;
mod members;
mod retirement;
mod rounds;
mod shared;
mod work_loop;

pub use crew::{open_crew, work_all};
pub use ends::finish;
pub use members::{Crew, Done, Round, Worker};
pub use retirement::retire_for_each;
pub use rounds::open_round;
pub use shared::Shared;
pub use work_loop::work;
