//! Tests of calls on hosts and lanes, and of tenants: calls at the same time, calls that are paused, the slots and blocks that calls leave
//! behind, a module that is retired, and tenants' plans and calls. Nothing stands on this crate.
#![tactic(auto)]

#[cfg(test)]
mod callers;
#[cfg(test)]
mod concurrent_calls;
#[cfg(test)]
mod lane;
#[cfg(test)]
mod marked_blocks;
#[cfg(test)]
mod paused_calls;
#[cfg(test)]
mod plans;
#[cfg(test)]
mod retirement;
#[cfg(test)]
mod tenants;
#[cfg(test)]
mod warm_slots;
