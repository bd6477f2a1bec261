//! A load: a request file of any size, made from a seed and a number of calls.
#![tactic(auto)]

mod generator;
mod load;
mod modules;

pub use generator::{INCREMENT, MULTIPLIER};
pub use load::{FUEL, LOOP_FUELS, make};
pub use modules::{ADD, BUMP, GROWN};
