//! Tests of configurations, of what errors say, of stores of modules, and of memories in slots. Nothing stands on this crate.
#![tactic(auto)]

#[cfg(test)]
mod configurations;
#[cfg(test)]
mod registrations;
#[cfg(test)]
mod stores;
#[cfg(test)]
mod texts;
#[cfg(test)]
mod visits;
