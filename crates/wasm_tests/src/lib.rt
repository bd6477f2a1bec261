//! Tests of what stands below the pools: numbers and modules as other engines have them, modules that are checked, and each call that may
//! want memory. Nothing stands on this crate.
#![tactic(auto)]

#[cfg(test)]
mod ample_memory;
#[cfg(test)]
mod modules;
#[cfg(test)]
mod numbers;
