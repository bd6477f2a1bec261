//! Makes calls, each on a fresh instance in slots of pools: a host's, which threads share, or a lane's, which has one caller.
#![tactic(auto)]

mod answers;
mod counting;
mod counts;
mod ended_call;
mod host;
mod lane;
mod new_passes;
mod passes;
mod paused;
mod refusals;
mod retired_modules;
mod slots;

pub use answers::{Answer, Begun, Retire, Turned};
pub use counts::PoolCounts;
pub use host::{Host, MOST_PASSES};
pub use lane::{LaneAnswer, LaneHost};
pub use passes::HostPass;
pub use paused::Paused;
pub use pool_model::Kind;
