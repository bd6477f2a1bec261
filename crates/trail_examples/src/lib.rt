//! Computed examples of the laws of trails: beside trails that have one, trails that must not have it. Nothing stands on this crate.
#![tactic(auto)]
